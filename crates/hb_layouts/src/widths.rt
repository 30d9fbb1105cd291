use crate::layouts::Layouts;
use hb_types::{Atom, Form, Types};

/// The numbers of `Unsigned`, `Signed` and `Bit` among type constructors.
const UNSIGNED: u32 = 0;

const SIGNED: u32 = 1;

const BIT: u32 = 2;

/// The number of the first declared type among type constructors.
const FIRST_TYPE: u32 = 13;

fn form_at(types: &Types, place: usize) -> Form {
    if place < types.len() {
        types.form(place)
    } else {
        Form::Unknown(0)
    }
}

/// The number of the declared type that stands at a place without arguments, among the declared ones.
pub fn declared_number(types: &Types, place: usize) -> Option<usize> {
    match form_at(types, place) {
        Form::Leaf(Atom::Con(number)) if number >= FIRST_TYPE => {
            Some((number - FIRST_TYPE) as usize)
        }
        _ => None,
    }
}

/// The number n of a type `Bit n`.
fn bit_number(types: &Types, function: usize, argument: usize) -> Option<u64> {
    match (form_at(types, function), form_at(types, argument)) {
        (Form::Leaf(Atom::Con(BIT)), Form::Leaf(Atom::Nat(number))) => Some(number),
        _ => None,
    }
}

/// The width of the type at a place as one of bits: that of a `Bit n` is n, whatever n is, `Unsigned` and `Signed` have 32, and a
/// bitdata type has the width of its layout. Other types have none.
pub fn bit_width(layouts: &Layouts, types: &Types, place: usize) -> Option<u64> {
    match form_at(types, place) {
        Form::Leaf(Atom::Con(UNSIGNED | SIGNED)) => Some(32),
        Form::Leaf(_) => layouts.width(declared_number(types, place)?),
        Form::Apply(function, argument) => bit_number(types, function, argument),
        Form::Unknown(_) => None,
    }
}
