//! Names and operators by their texts.
ghost use Rattle.std.specs.Prelude.{◌≡◌, ◌≤◌, ◌&&◌, length, position};
ghost use Rattle.std.specs.List.{list_any, list_all};
ghost use Rattle.std.specs.Str.{bytes_eq};
ghost use Rattle.hb_base.specs.PortName.{is_lower};
ghost use Rattle.hb_second.specs.Names.{taken_words, is_short_lower, is_free_name, is_new_name, same_way, has_port, find_port, operator_named};
ghost use Rattle.hb_second.specs.Items.{text_of, is_named};

use crate::source::Operator;
use hb_base::{Dir, Name, Names, Port, Text};

/// Words that no port and no variable is called.
const TAKEN: [&[u8]; 43] = [
    b"area",
    b"bitdata",
    b"struct",
    b"port",
    b"class",
    b"instance",
    b"data",
    b"infix",
    b"infixl",
    b"infixr",
    b"where",
    b"let",
    b"in",
    b"do",
    b"of",
    b"case",
    b"if",
    b"then",
    b"else",
    b"each",
    b"fields",
    b"aligned",
    b"at",
    b"module",
    b"import",
    b"export",
    b"deriving",
    b"default",
    b"type",
    b"newtype",
    b"foreign",
    b"opaque",
    b"fails",
    b"return",
    b"halt",
    b"complement",
    b"shl",
    b"shr",
    b"not",
    b"when",
    b"unless",
    b"forever",
    b"main",
];

/// The text of a name, and no bytes where the table does not have it.
pub fn text_of(names: &Names, name: Name) -> &[u8]
    ensures { result.now ≡ text_of names.now name }
{
    match names.text(name) {
        Some(text) => text,
        None => &[],
    }
}

pub fn is_named(names: &Names, text: &[u8], name: Name) -> bool
    ensures { result ≡ is_named names.now text.now name }
{
    text_of(names, name) == text
}

/// The name is one of these words.
fn is_among(name: &[u8], words: &[&[u8]]) -> bool
    ensures { result ≡ list_any (λ word. bytes_eq name.now word.now) words.now }
{
    words.iter().any(|word| name == *word)
}

/// The name is a reserved word, or one that the prelude or a primitive has.
fn is_taken(name: &[u8]) -> bool
    ensures { result ≡ list_any (bytes_eq name.now) taken_words }
{
    is_among(name, &TAKEN)
}

fn is_all_lower(name: &[u8]) -> bool
    ensures { result ≡ list_all is_lower name.now }
{
    name.iter().all(|c| c.is_ascii_lowercase())
}

/// 1 to 64 lower-case letters.
fn is_short_lower(name: &[u8]) -> bool
    ensures { result ≡ is_short_lower name.now }
{
    if name.is_empty() || name.len() > 64 {
        return false;
    }
    is_all_lower(name)
}

fn is_free_name(name: &[u8]) -> bool
    ensures { result ≡ is_free_name name.now }
{
    is_short_lower(name) && !is_taken(name)
}

fn is_port_name(ports: &[Port], name: &[u8]) -> bool
    ensures { result ≡ list_any (λ port. bytes_eq name.now port.name) ports.now }
{
    ports.iter().any(|port| name == port.name.as_slice())
}

fn is_variable_name(variables: &[Text], name: &[u8]) -> bool
    ensures { result ≡ list_any (bytes_eq name.now) variables.now }
{
    variables.iter().any(|variable| name == variable.as_slice())
}

/// The name is free, and no port and no variable has it.
pub fn is_new_name(ports: &[Port], variables: &[Text], name: &[u8]) -> bool
    ensures { result ≡ is_new_name ports.now variables.now name.now }
{
    is_free_name(name) && !is_port_name(ports, name) && !is_variable_name(variables, name)
}

fn same_way(a: Dir, b: Dir) -> bool
    ensures { result ≡ same_way a b }
{
    a == b
}

pub fn has_port(way: Dir, ports: &[Port]) -> bool
    ensures { result ≡ has_port way ports.now }
{
    ports.iter().any(|port| same_way(port.dir, way))
}

fn is_that_port(port: &Port, way: Dir, name: &[u8]) -> bool
    ensures { result ≡ same_way port.now.dir way && bytes_eq name.now port.now.name }
{
    same_way(port.dir, way) && name == port.name.as_slice()
}

/// The number of the port that goes this way and has this name.
pub fn find_port(way: Dir, name: &[u8], ports: &[Port]) -> Option<u32>
    requires { length ports.now ≤ 256 }
    ensures { result ≡ find_port way name.now ports.now }
{
    match ports.iter().position(|port| is_that_port(port, way, name)) {
        Some(number) => Some(number as u32),
        None => None,
    }
}

/// The number of the variable of this name.
pub fn find_variable(variables: &[Text], name: &[u8]) -> Option<u32>
    requires { length variables.now ≤ 1000 }
    ensures { result ≡ position (bytes_eq name.now) variables.now }
{
    match variables
        .iter()
        .position(|variable| name == variable.as_slice())
    {
        Some(number) => Some(number as u32),
        None => None,
    }
}

pub fn operator_named(text: &[u8]) -> Option<Operator>
    ensures { result ≡ operator_named text.now }
{
    if text == b"+".as_slice() {
        Some(Operator::Add)
    } else if text == b"-".as_slice() {
        Some(Operator::Sub)
    } else if text == b".&.".as_slice() {
        Some(Operator::And)
    } else if text == b".|.".as_slice() {
        Some(Operator::Or)
    } else if text == b".^.".as_slice() {
        Some(Operator::Xor)
    } else {
        None
    }
}
