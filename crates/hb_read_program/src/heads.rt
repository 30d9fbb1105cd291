ghost use Rattle.std.specs.Prelude.{◌≡◌, [], ◌∷◌, IsTrue};
ghost use Rattle.hb_read_program.specs.Running.{is_class_symbol};
ghost use Rattle.hb_read_program.specs.Rules.{head, mute, between, fits, found, heads};

use crate::symbol::{Form, Head, Kind, Production, Put, Symbol, Things};
use crate::worths::{
    bits, con, digit, end_of, mark, number, op, this_con, this_op, this_word, var,
};
use hb_base::Dir;
use hb_base::fixed::{IN, OUT, PAD, SLASH};
use hb_tokens::{Token, Word};
use hb_tree::Fix;

/// The ways in which a symbol begins: the kind of the token, what it puts out, and what stands behind it.
macro_rules! heads {
    ($($kind:ident $(($of:expr))? => $put:ident $(($what:expr))?, $behind:ident $(($how:expr))?;)*) => {
        &[$(Head {
            kind: Kind::$kind $(($of))?,
            put: Put::$put $(($what))?,
            behind: Production::$behind $(($how))?,
        }),*]
    };
}

const TOPS: &[Head] = heads![
    Mark(b'}') => Close(Form::Program), Nothing;
    Mark(b';') => Nothing, Tops;
    Word(Word::Infixl) => Nothing, Fixity(Fix::Left);
    Word(Word::Infixr) => Nothing, Fixity(Fix::Right);
    Word(Word::Infix) => Nothing, Fixity(Fix::Neither);
    Word(Word::Data) => Nothing, Data;
    Word(Word::Bitdata) => Nothing, Bitdata;
    Word(Word::Struct) => Nothing, Struct;
    Word(Word::Area) => Nothing, Area;
    Word(Word::Port) => Nothing, Port;
    Word(Word::Class) => Nothing, Class;
    Word(Word::Instance) => Nothing, Instance;
];

const AFTER_TOP: &[Head] =
    heads![Mark(b'}') => Close(Form::Program), Nothing; Mark(b';') => Nothing, Tops;];

const INFIX: &[Head] = heads![Op => Name, Nothing; Mark(b'`') => Nothing, Quoted;];

const NAME: &[Head] = heads![Var => Name, Nothing; Mark(b'(') => Nothing, Bracketed;];

const BIT_PART: &[Head] = heads![Bits => Tag, Nothing; Var => Name, BitFields;];

const BIT_PARTS: &[Head] = heads![
    Mark(b']') => Close(Form::BitCon), Nothing;
    Bits => Tag, FirstBitPart;
    Var => Name, FirstBitFields;
];

const MORE_BIT_PARTS: &[Head] = heads![
    Mark(b']') => Close(Form::BitCon), Nothing;
    Word(Word::Bar) => Nothing, MoreBitParts;
];

const STRUCT_PART: &[Head] = heads![Pad => Nothing, Padding; Var => Name, StructFields;];

const INIT: &[Head] =
    heads![Word(Word::Each) => Nothing, Each; Word(Word::Fields) => Nothing, Fields;];

const MORE_INITS: &[Head] = heads![
    Mark(b']') => Close(Form::InitFields), Nothing;
    Word(Word::Bar) => Nothing, MoreInits;
];

const DIRECTION: &[Head] = heads![
    Toward(Dir::In) => Nothing, Address(Dir::In);
    Toward(Dir::Out) => Nothing, Address(Dir::Out);
];

const SIGS: &[Head] = heads![
    Mark(b'}') => Close(Form::Sigs), Nothing;
    Mark(b';') => Nothing, Sigs;
    Var => Name, SigNames;
    Mark(b'(') => Nothing, SigBracketed;
];

const AFTER_SIG: &[Head] =
    heads![Mark(b'}') => Close(Form::Sigs), Nothing; Mark(b';') => Nothing, Sigs;];

const ROWS: &[Head] =
    heads![Mark(b'}') => Close(Form::Equations), Nothing; Mark(b';') => Nothing, Rows;];

/// The token is of this kind.
fn fits(kind: Kind, token: &Token) -> bool
    ensures { result ≡ fits kind token.now }
{
    match kind {
        Kind::Var => var(token).is_some(),
        Kind::Con => con(token).is_some(),
        Kind::Op => op(token).is_some(),
        Kind::Number => number(token).is_some(),
        Kind::Digit => digit(token).is_some(),
        Kind::Bits => bits(token).is_some(),
        Kind::Pad => this_con(PAD, token).is_some(),
        Kind::Slash => this_op(SLASH, token).is_some(),
        Kind::Toward(Dir::In) => this_con(IN, token).is_some(),
        Kind::Toward(Dir::Out) => this_con(OUT, token).is_some(),
        Kind::Word(word) => this_word(word, token).is_some(),
        Kind::Mark(byte) => mark(byte, token).is_some(),
        Kind::End => end_of(token).is_some(),
    }
}

/// The mark between things.
fn between(things: Things) -> Kind
    ensures { result ≡ between things }
{
    match things {
        Things::DataCons | Things::BitCons | Things::StructParts => Kind::Word(Word::Bar),
        Things::Names | Things::Infixes | Things::FieldNames | Things::Depends | Things::Preds => {
            Kind::Mark(b',')
        }
    }
}

/// The first of these ways that begins with the token.
fn first(heads: &[Head], token: &Token) -> Option<Head>
    ensures { result ≡ found heads.now token.now }
{
    let mut left = heads;
    while let Some((head, rest)) = left.split_first() {
        if fits(head.kind, token) {
            return Some(*head);
        }
        left = rest;
    }
    None
}

/// The one way in which a symbol begins.
fn only(kind: Kind, put: Put, behind: Production, token: &Token) -> Option<Head>
    ensures { result ≡ found (head kind put behind ∷ []) token.now }
{
    first(&[Head { kind, put, behind }], token)
}

/// The same, with a token that puts nothing out.
fn mute(kind: Kind, behind: Production, token: &Token) -> Option<Head>
    ensures { result ≡ found (mute kind behind ∷ []) token.now }
{
    only(kind, Put::Nothing, behind, token)
}

/// The way in which a symbol in a class or in an instance begins with this token.
fn found_in_class(symbol: Symbol, token: &Token) -> Option<Head>
    requires { IsTrue (is_class_symbol symbol) }
    ensures { result ≡ found (heads symbol) token.now }
{
    match symbol {
        Symbol::Depend => first(heads![Var => Name, Depend;], token),
        Symbol::Depends => first(heads![Word(Word::Bar) => Nothing, Depends;], token),
        Symbol::Methods => first(heads![Word(Word::Where) => Nothing, Methods;], token),
        Symbol::Sigs => first(SIGS, token),
        Symbol::AfterSig => first(AFTER_SIG, token),
        Symbol::Conditions => first(heads![Word(Word::If) => Nothing, Conditions;], token),
        Symbol::Body => first(heads![Word(Word::Where) => Nothing, Body;], token),
        Symbol::Rows | Symbol::AfterRow => first(ROWS, token),
        _ => None,
    }
}

/// The way in which the symbol begins with this token.
pub fn found(symbol: Symbol, token: &Token) -> Option<Head>
    ensures { result ≡ found (heads symbol) token.now }
{
    match symbol {
        Symbol::One(kind, put) => only(kind, put, Production::Nothing, token),
        Symbol::More(things) => mute(between(things), Production::More(things), token),
        Symbol::Digit(fix) => mute(Kind::Digit, Production::Fixed(fix), token),
        Symbol::Program => first(heads![Mark(b'{') => Nothing, Program;], token),
        Symbol::Tops => first(TOPS, token),
        Symbol::AfterTop => first(AFTER_TOP, token),
        Symbol::Infix => first(INFIX, token),
        Symbol::Name => first(NAME, token),
        Symbol::Vars => first(heads![Var => Name, Vars;], token),
        Symbol::SomeVars => first(heads![Var => Name, FirstVars;], token),
        Symbol::Size => first(heads![Slash => Nothing, Number;], token),
        Symbol::Align => first(heads![Word(Word::Aligned) => Nothing, Number;], token),
        Symbol::DataCon => first(heads![Con => Name, DataCon;], token),
        Symbol::BitPart => first(BIT_PART, token),
        Symbol::BitParts => first(BIT_PARTS, token),
        Symbol::MoreBitParts => first(MORE_BIT_PARTS, token),
        Symbol::BitCon => first(heads![Con => Name, BitCon;], token),
        Symbol::StructPart => first(STRUCT_PART, token),
        Symbol::Start => first(heads![Word(Word::LeftArrow) => Nothing, Start;], token),
        Symbol::Init => first(INIT, token),
        Symbol::FieldInit => first(heads![Var => Name, FieldInit;], token),
        Symbol::MoreInits => first(MORE_INITS, token),
        Symbol::Direction => first(DIRECTION, token),
        Symbol::Read(_)
        | Symbol::Close(_)
        | Symbol::Atypes
        | Symbol::SomeAtypes
        | Symbol::ClassHead => None,
        _ => found_in_class(symbol, token),
    }
}
