ghost use Rattle.std.specs.Prelude.{◌≡◌, ◌++◌, OnOk};
ghost use Rattle.hb_read_program.specs.Rules.{name_in, number_in, width_in, bits_in, digit_in, node_of, put_out, things_form, nothing_of};

use crate::symbol::{Form, Put, Symbol, Things};
use hb_base::fixed::PAD;
use hb_base::{List, Memory, Name, Place};
use hb_read_declarations::DeclNode;
use hb_read_types::TypeNode;
use hb_tokens::{Token, TokenKind};

/// The name that a token is.
fn name_in(kind: TokenKind) -> Name
    ensures { result ≡ name_in kind }
{
    match kind {
        TokenKind::VarId(name) | TokenKind::ConId(name) | TokenKind::Op(name) => name,
        _ => PAD,
    }
}

/// The number that a token is.
pub fn number_in(kind: TokenKind) -> u64
    ensures { result ≡ number_in kind }
{
    match kind {
        TokenKind::Number(number) => number,
        _ => 0,
    }
}

fn width_in(kind: TokenKind) -> u32
    ensures { result ≡ width_in kind }
{
    match kind {
        TokenKind::Bits(width, _) => width,
        _ => 0,
    }
}

fn bits_in(kind: TokenKind) -> u128
    ensures { result ≡ bits_in kind }
{
    match kind {
        TokenKind::Bits(_, bits) => bits,
        _ => 0,
    }
}

/// A digit is at most 9.
fn digit_in(count: usize) -> u8
    ensures { result ≡ digit_in count }
{
    if count <= 9 { count as u8 } else { 9 }
}

/// The node of a form that began at this place and has so many parts.
pub fn node_of(form: Form, place: Place, count: usize) -> DeclNode
    ensures { result ≡ node_of form place count }
{
    match form {
        Form::Names => DeclNode::Names(count),
        Form::Types => DeclNode::Types(count),
        Form::NoNumber => DeclNode::NoNumber,
        Form::Sig => DeclNode::Sig(place),
        Form::Sigs => DeclNode::Sigs(count),
        Form::Equations => DeclNode::Equations(count),
        Form::Fixity(fix) => DeclNode::Fixity(place, fix, digit_in(count)),
        Form::DataCon => DeclNode::DataCon,
        Form::DataCons => DeclNode::DataCons(count),
        Form::Fields => DeclNode::Fields,
        Form::BitFields => DeclNode::BitFields,
        Form::BitCon => DeclNode::BitCon(count),
        Form::BitCons => DeclNode::BitCons(count),
        Form::StructFields => DeclNode::StructFields,
        Form::StructParts => DeclNode::StructParts(count),
        Form::Depend => DeclNode::Depend,
        Form::Depends => DeclNode::Depends(count),
        Form::Context => DeclNode::Type(TypeNode::Context(count)),
        Form::InitEach => DeclNode::InitEach(place),
        Form::InitField => DeclNode::InitField,
        Form::InitFields => DeclNode::InitFields(place, count),
        Form::InitCell => DeclNode::InitCell(place),
        Form::NoInit => DeclNode::NoInit,
        Form::Init => DeclNode::Init,
        Form::Data => DeclNode::Data(place),
        Form::Bitdata => DeclNode::Bitdata(place),
        Form::Struct => DeclNode::Struct(place),
        Form::Area => DeclNode::Area(place),
        Form::Class => DeclNode::Class(place),
        Form::Instance => DeclNode::Instance(place),
        Form::Program => DeclNode::Program(count),
    }
}

/// Puts out what a token is worth, in a form that began at this place and has so many parts.
pub fn put_out(
    nodes: &mut List<DeclNode>,
    put: Put,
    place: Place,
    count: usize,
    token: &Token,
) -> Result<(), Memory>
    ensures { OnOk result (nodes.new ≡ nodes.old ++ put_out put place count token.now) }
{
    let node = match put {
        Put::Nothing => return Ok(()),
        Put::Name => DeclNode::Name(token.place, name_in(token.kind)),
        Put::NameBefore => DeclNode::Name(place, name_in(token.kind)),
        Put::Number => DeclNode::Number(number_in(token.kind)),
        Put::Tag => DeclNode::Tag(width_in(token.kind), bits_in(token.kind)),
        Put::Pad => DeclNode::Pad(number_in(token.kind)),
        Put::Port(dir) => DeclNode::Port(place, dir, width_in(token.kind), bits_in(token.kind)),
        Put::Close(form) => node_of(form, place, count),
    };
    nodes.push(node)?;
    Ok(())
}

/// The form whose parts are things of which there may be more.
fn things_form(things: Things) -> Form
    ensures { result ≡ things_form things }
{
    match things {
        Things::Names | Things::Infixes | Things::FieldNames => Form::Names,
        Things::DataCons => Form::DataCons,
        Things::BitCons => Form::BitCons,
        Things::StructParts => Form::StructParts,
        Things::Depends => Form::Depends,
        Things::Preds => Form::Context,
    }
}

/// The form of the node that is put out where the symbol is nothing, if it may be.
pub fn nothing_of(symbol: Symbol) -> Option<Form>
    ensures { result ≡ nothing_of symbol }
{
    match symbol {
        Symbol::Close(form) => Some(form),
        Symbol::More(things) => Some(things_form(things)),
        Symbol::Vars => Some(Form::Names),
        Symbol::Atypes => Some(Form::Types),
        Symbol::Size | Symbol::Align => Some(Form::NoNumber),
        Symbol::Start => Some(Form::NoInit),
        Symbol::Depends => Some(Form::Depends),
        Symbol::Methods => Some(Form::Sigs),
        Symbol::Conditions => Some(Form::Context),
        Symbol::Body => Some(Form::Equations),
        _ => None,
    }
}
