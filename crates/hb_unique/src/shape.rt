use crate::unique::UniqueTypes;
use hb_types::{Atom, Form, Types};

/// The form of the type at a place, if the place is one of the table.
pub fn form_at(types: &Types, place: usize) -> Option<Form> {
    if place < types.len() {
        Some(types.form(place))
    } else {
        None
    }
}

/// How a type looks from outside: a number, a constructor alone, a constructor at one type, which it names by its place,
/// or another form.
#[derive(Clone, Copy, Debug, PartialEq, Eq)]
pub enum Shape {
    Number(u64),
    Alone(u32),
    At(u32, usize),
    Other,
}

/// The shape of an application.
fn applied(types: &UniqueTypes, function: usize, argument: usize) -> Shape {
    match types.form(function) {
        Some(Form::Leaf(Atom::Con(con))) => Shape::At(con, argument),
        _ => Shape::Other,
    }
}

/// The shape of the type at a place.
pub fn shape_of(types: &UniqueTypes, place: usize) -> Shape {
    match types.form(place) {
        Some(Form::Leaf(Atom::Nat(number))) => Shape::Number(number),
        Some(Form::Leaf(Atom::Con(con))) => Shape::Alone(con),
        Some(Form::Apply(function, argument)) => applied(types, function, argument),
        _ => Shape::Other,
    }
}
