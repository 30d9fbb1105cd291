use crate::table::{Class, ClassTable, DeclaredType};
use hb_unique::{Shape, UniqueTypes, shape_of};

/// The built-in constructors of types, by their numbers.
const UNSIGNED: u32 = 0;

const SIGNED: u32 = 1;

const BIT: u32 = 2;

const IX: u32 = 3;

const REF: u32 = 8;

const STORED: u32 = 10;

const BIG_ENDIAN: u32 = 11;

/// The number of the first declared type among the constructors.
const FIRST_DECLARED: u32 = 13;

/// The number that a type is, if it is one.
pub fn number(types: &UniqueTypes, place: usize) -> Option<u64> {
    match shape_of(types, place) {
        Shape::Number(number) => Some(number),
        _ => None,
    }
}

/// A declared type, by the number of its constructor.
pub fn declared(table: &ClassTable, con: u32) -> Option<&DeclaredType> {
    let place = con.checked_sub(FIRST_DECLARED)?;
    table.declared.as_slice().get(place as usize)
}

/// The type to which a type refers, if it is a reference.
pub fn referred(types: &UniqueTypes, place: usize) -> Option<usize> {
    match shape_of(types, place) {
        Shape::At(REF, area) => Some(area),
        _ => None,
    }
}

/// The width of a type that is a bitdata type.
pub fn bit_width(table: &ClassTable, types: &UniqueTypes, place: usize) -> Option<u32> {
    match shape_of(types, place) {
        Shape::Alone(con) => declared(table, con)?.width,
        _ => None,
    }
}

/// The type of what a cell holds, if the type is that of a cell.
pub fn content(types: &UniqueTypes, place: usize) -> Option<usize> {
    match shape_of(types, place) {
        Shape::At(STORED | BIG_ENDIAN, of) => Some(of),
        _ => None,
    }
}

/// The bytes of a cell of so many bits.
fn bytes(width: u64) -> Option<u32> {
    match width {
        8 => Some(1),
        16 => Some(2),
        32 => Some(4),
        _ => None,
    }
}

/// The bytes of a cell, which are its alignment too: none where values of the type are not stored.
pub fn bytes_of_cell(table: &ClassTable, types: &UniqueTypes, place: usize) -> Option<u32> {
    match shape_of(types, place) {
        Shape::Alone(UNSIGNED | SIGNED) => Some(4),
        Shape::At(IX | REF, _) => Some(4),
        Shape::At(BIT, of) => bytes(number(types, of)?),
        _ => bytes(bit_width(table, types, place)? as u64),
    }
}

fn is_width(number: u64) -> bool {
    1 <= number && number <= 32
}

fn is_index(number: u64) -> bool {
    1 <= number && number <= 2147483648
}

/// Whether a literal is below 2 to the power of a width, which is one.
fn fits_width(literal: u64, width: u64) -> bool {
    match u32::try_from(width) {
        Ok(bits) => is_width(width) && literal.checked_shr(bits) == Some(0),
        Err(_) => false,
    }
}

/// Whether a literal is in the range of a type.
fn in_range(types: &UniqueTypes, literal: u64, place: usize) -> bool {
    match shape_of(types, place) {
        Shape::Alone(UNSIGNED) => literal < 4294967296,
        Shape::Alone(SIGNED) => literal < 2147483648,
        Shape::At(BIT, of) => number(types, of).is_some_and(|n| fits_width(literal, n)),
        Shape::At(IX, of) => number(types, of).is_some_and(|n| is_index(n) && literal < n),
        _ => false,
    }
}

/// What two numbers of a predicate make together: the third, if there is one up to 2^64 - 1.
fn together(class: Class, n: u64, m: u64) -> Option<u64> {
    match class {
        Class::Sum => n.checked_add(m),
        Class::Product => n.checked_mul(m),
        _ => None,
    }
}

/// Whether two numbers are as a predicate asks.
fn compared(class: Class, n: u64, m: u64) -> bool {
    match class {
        Class::AtMost => n <= m,
        Class::Power => if n < 64 { 1 << n == m } else { false },
        _ => false,
    }
}

/// Whether a number is as a predicate asks.
fn ranged(class: Class, n: u64) -> bool {
    match class {
        Class::Width => is_width(n),
        Class::Index => is_index(n),
        _ => false,
    }
}

/// Whether a type is a bitdata type of this width.
fn is_bit_rep(table: &ClassTable, types: &UniqueTypes, of: usize, width: usize) -> bool {
    match (bit_width(table, types, of), number(types, width)) {
        (Some(bits), Some(wanted)) => bits as u64 == wanted,
        _ => false,
    }
}

/// Whether an area is a cell of a type that is stored.
fn is_cell(table: &ClassTable, types: &UniqueTypes, area: usize, of: usize) -> bool {
    match content(types, area) {
        Some(one) => types.resolved(one) == types.resolved(of)
            && bytes_of_cell(table, types, of).is_some(),
        None => false,
    }
}

fn is_fact_of_two(
    table: &ClassTable,
    types: &UniqueTypes,
    class: Class,
    a: usize,
    b: usize,
) -> bool {
    match class {
        Class::BitRep => is_bit_rep(table, types, a, b),
        Class::Cell => is_cell(table, types, a, b),
        Class::NumLit => number(types, a).is_some_and(|literal| in_range(types, literal, b)),
        _ => match (number(types, a), number(types, b)) {
            (Some(n), Some(m)) => compared(class, n, m),
            _ => false,
        },
    }
}

fn is_fact_of_three(types: &UniqueTypes, class: Class, a: usize, b: usize, c: usize) -> bool {
    match (number(types, a), number(types, b), number(types, c)) {
        (Some(n), Some(m), Some(p)) => together(class, n, m) == Some(p),
        _ => false,
    }
}

/// Whether a predicate holds by itself, as a fact of numbers, literals, bit data or cells. A predicate of a declared
/// class, a selection and an update do not.
pub fn is_fact(table: &ClassTable, types: &UniqueTypes, class: Class, args: &[usize]) -> bool {
    match args {
        [a] => number(types, *a).is_some_and(|n| ranged(class, n)),
        [a, b] => is_fact_of_two(table, types, class, *a, *b),
        [a, b, c] => is_fact_of_three(types, class, *a, *b, *c),
        _ => false,
    }
}
