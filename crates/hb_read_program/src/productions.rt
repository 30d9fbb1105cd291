ghost use Rattle.std.specs.Prelude.{◌≡◌, IsTrue};
ghost use Rattle.hb_read_program.specs.Rules.{begins_with, behind};
ghost use Rattle.hb_read_program.specs.Running.{is_in_class, seen_begins};
ghost use Rattle.hb_read_program.specs.declared.symbol.Production.TheVariants as production;

use crate::begins::Begins;
use crate::symbol::{Count, Form, Item, Kind, Leaf, Production, Put, Symbol, Things};
use hb_base::Dir;
use hb_tokens::Word;
use hb_tree::Fix;

/// A symbol that has no parts yet.
macro_rules! plain {
    ($symbol:ident $(($($of:expr),*))?) => {
        Item { symbol: Symbol::$symbol $(($($of),*))?, count: Count::Zero }
    };
}

/// The same, with these parts.
macro_rules! counted {
    ($symbol:ident $(($of:expr))?, $count:ident) => {
        Item { symbol: Symbol::$symbol $(($of))?, count: Count::$count }
    };
}

macro_rules! word {
    ($word:ident) => {
        plain!(One(Kind::Word(Word::$word), Put::Nothing))
    };
}

macro_rules! mark {
    ($byte:literal) => {
        plain!(One(Kind::Mark($byte), Put::Nothing))
    };
}

macro_rules! leaf {
    ($leaf:ident) => {
        plain!(Read(Leaf::$leaf))
    };
}

macro_rules! closing {
    ($form:ident) => {
        plain!(Close(Form::$form))
    };
}

macro_rules! more {
    ($things:ident) => {
        counted!(More(Things::$things), One)
    };
}

const VAR: Item = plain!(One(Kind::Var, Put::Name));

const CON: Item = plain!(One(Kind::Con, Put::Name));

const NUMBER: Item = plain!(One(Kind::Number, Put::Number));

const OPERATOR: Item = plain!(One(Kind::Op, Put::NameBefore));

const NEXT_TOP: Item = counted!(AfterTop, Next);

const NEXT_SIG: Item = counted!(AfterSig, Next);

/// Behind a declaration's first word.
const DATA: &[Item] = &[
    CON,
    plain!(Vars),
    word!(Equals),
    plain!(DataCon),
    more!(DataCons),
    closing!(Data),
    NEXT_TOP,
];

const BITDATA: &[Item] = &[
    CON,
    plain!(Size),
    word!(Equals),
    plain!(BitCon),
    more!(BitCons),
    closing!(Bitdata),
    NEXT_TOP,
];

const STRUCT: &[Item] = &[
    CON,
    plain!(Size),
    mark!(b'['),
    plain!(StructPart),
    more!(StructParts),
    mark!(b']'),
    closing!(Struct),
    NEXT_TOP,
];

const AREA: &[Item] = &[
    VAR,
    plain!(Start),
    word!(DoubleColon),
    leaf!(Type),
    plain!(Align),
    closing!(Area),
    NEXT_TOP,
];

const PORT: &[Item] = &[VAR, word!(DoubleColon), plain!(Direction), NEXT_TOP];

const CLASS: &[Item] = &[
    plain!(ClassHead),
    plain!(Depends),
    plain!(Methods),
    closing!(Class),
    NEXT_TOP,
];

const INSTANCE: &[Item] = &[
    CON,
    plain!(SomeAtypes),
    plain!(Conditions),
    plain!(Body),
    closing!(Instance),
    NEXT_TOP,
];

/// Behind the first name of fields.
const BIT_FIELDS: &[Item] = &[
    more!(FieldNames),
    word!(DoubleColon),
    leaf!(Type),
    closing!(Fields),
    closing!(BitFields),
];

const FIRST_BIT_FIELDS: &[Item] = &[
    more!(FieldNames),
    word!(DoubleColon),
    leaf!(Type),
    closing!(Fields),
    closing!(BitFields),
    counted!(MoreBitParts, One),
];

const STRUCT_FIELDS: &[Item] = &[
    more!(FieldNames),
    word!(DoubleColon),
    leaf!(Type),
    closing!(Fields),
    closing!(StructFields),
];

const DEPEND: &[Item] = &[
    counted!(Vars, One),
    word!(RightArrow),
    plain!(SomeVars),
    closing!(Depend),
];

const SIG_NAMES: &[Item] = &[
    more!(Names),
    word!(DoubleColon),
    leaf!(Qualified),
    closing!(Sig),
    NEXT_SIG,
];

const SIG_BRACKETED: &[Item] = &[
    OPERATOR,
    mark!(b')'),
    more!(Names),
    word!(DoubleColon),
    leaf!(Qualified),
    closing!(Sig),
    NEXT_SIG,
];

/// What stands behind the names of a signature and `::`.
pub const SIG_TYPE: &[Item] = &[leaf!(Qualified), closing!(Sig)];

/// What stands behind the context of a class and `=>`.
pub const CLASS_NAME: &[Item] = &[CON, plain!(SomeVars)];

/// What stands behind the word of a fixity.
fn fixity(fix: Fix) -> &'static [Item]
    ensures { result.now ≡ behind (production.Fixity fix) }
{
    match fix {
        Fix::Left => &[plain!(Digit(Fix::Left)), NEXT_TOP],
        Fix::Right => &[plain!(Digit(Fix::Right)), NEXT_TOP],
        Fix::Neither => &[plain!(Digit(Fix::Neither)), NEXT_TOP],
    }
}

/// What stands behind the digit of a fixity.
fn fixed(fix: Fix) -> &'static [Item]
    ensures { result.now ≡ behind (production.Fixed fix) }
{
    match fix {
        Fix::Left => &[
            plain!(Infix),
            more!(Infixes),
            counted!(Close(Form::Fixity(Fix::Left)), Read),
        ],
        Fix::Right => &[
            plain!(Infix),
            more!(Infixes),
            counted!(Close(Form::Fixity(Fix::Right)), Read),
        ],
        Fix::Neither => &[
            plain!(Infix),
            more!(Infixes),
            counted!(Close(Form::Fixity(Fix::Neither)), Read),
        ],
    }
}

/// What stands behind the direction of a port.
fn address(dir: Dir) -> &'static [Item]
    ensures { result.now ≡ behind (production.Address dir) }
{
    match dir {
        Dir::In => &[
            leaf!(Atype),
            word!(At),
            plain!(One(Kind::Bits, Put::Port(Dir::In))),
        ],
        Dir::Out => &[
            leaf!(Atype),
            word!(At),
            plain!(One(Kind::Bits, Put::Port(Dir::Out))),
        ],
    }
}

/// What stands behind a mark between things.
fn more(things: Things) -> &'static [Item]
    ensures { result.now ≡ behind (production.More things) }
{
    match things {
        Things::Names => &[plain!(Name), counted!(More(Things::Names), Next)],
        Things::Infixes => &[plain!(Infix), counted!(More(Things::Infixes), Next)],
        Things::FieldNames => &[VAR, counted!(More(Things::FieldNames), Next)],
        Things::DataCons => &[plain!(DataCon), counted!(More(Things::DataCons), Next)],
        Things::BitCons => &[plain!(BitCon), counted!(More(Things::BitCons), Next)],
        Things::StructParts => &[
            plain!(StructPart),
            counted!(More(Things::StructParts), Next),
        ],
        Things::Depends => &[plain!(Depend), counted!(More(Things::Depends), Next)],
        Things::Preds => &[leaf!(Pred), counted!(More(Things::Preds), Next)],
    }
}

/// What stands behind the first token of a thing in a class or in an instance.
fn class_behind(production: Production) -> &'static [Item]
    requires { IsTrue (is_in_class production) }
    ensures { result.now ≡ behind production }
{
    match production {
        Production::Depend => DEPEND,
        Production::Depends => &[plain!(Depend), more!(Depends)],
        Production::Methods => &[mark!(b'{'), plain!(Sigs)],
        Production::Sigs => &[counted!(Sigs, Same)],
        Production::SigNames => SIG_NAMES,
        Production::SigBracketed => SIG_BRACKETED,
        Production::Conditions => &[leaf!(Pred), more!(Preds)],
        Production::Body => &[mark!(b'{'), plain!(Rows)],
        Production::Rows => &[counted!(Rows, Same)],
        _ => &[],
    }
}

/// What stands behind the first token.
pub fn behind(production: Production) -> &'static [Item]
    ensures { result.now ≡ behind production }
{
    match production {
        Production::Nothing => &[],
        Production::Program => &[plain!(Tops), plain!(One(Kind::End, Put::Nothing))],
        Production::Tops => &[counted!(Tops, Same)],
        Production::Fixity(fix) => fixity(fix),
        Production::Fixed(fix) => fixed(fix),
        Production::Data => DATA,
        Production::Bitdata => BITDATA,
        Production::Struct => STRUCT,
        Production::Area => AREA,
        Production::Port => PORT,
        Production::Class => CLASS,
        Production::Instance => INSTANCE,
        Production::Quoted => &[VAR, mark!(b'`')],
        Production::Bracketed => &[OPERATOR, mark!(b')')],
        Production::More(things) => more(things),
        Production::Vars => &[counted!(Vars, Next)],
        Production::FirstVars => &[counted!(Vars, One)],
        Production::Number => &[NUMBER],
        Production::DataCon => &[plain!(Atypes), closing!(DataCon)],
        Production::BitFields => BIT_FIELDS,
        Production::FirstBitPart => &[counted!(MoreBitParts, One)],
        Production::FirstBitFields => FIRST_BIT_FIELDS,
        Production::MoreBitParts => &[plain!(BitPart), counted!(MoreBitParts, Next)],
        Production::BitCon => &[mark!(b'['), plain!(BitParts)],
        Production::Padding => &[plain!(One(Kind::Number, Put::Pad))],
        Production::StructFields => STRUCT_FIELDS,
        Production::Start => &[plain!(Init), closing!(Init)],
        Production::Each => &[VAR, word!(RightArrow), plain!(Init), closing!(InitEach)],
        Production::Fields => &[mark!(b'['), plain!(FieldInit), counted!(MoreInits, One)],
        Production::FieldInit => &[word!(LeftArrow), plain!(Init), closing!(InitField)],
        Production::MoreInits => &[plain!(FieldInit), counted!(MoreInits, Next)],
        Production::Address(dir) => address(dir),
        _ => class_behind(production),
    }
}

/// The thing with a reader of its own with which a symbol begins, and what stands behind it.
pub fn begins_with(symbol: Symbol) -> Begins
    ensures { seen_begins result ≡ begins_with symbol }
{
    match symbol {
        Symbol::Read(leaf) => Begins::Leaf(leaf, &[]),
        Symbol::Atypes => Begins::Leaf(Leaf::Atype, &[counted!(Atypes, Next)]),
        Symbol::SomeAtypes => Begins::Leaf(Leaf::Atype, &[counted!(Atypes, One)]),
        Symbol::Init => Begins::Leaf(Leaf::Expr, &[closing!(InitCell)]),
        Symbol::Rows => Begins::Leaf(Leaf::Equation, &[counted!(AfterRow, Next)]),
        Symbol::Tops => Begins::Line(&[NEXT_TOP]),
        Symbol::ClassHead => Begins::Class,
        _ => Begins::NoLeaf,
    }
}
