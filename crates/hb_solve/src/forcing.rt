use hb_base::Memory;
use hb_classes::{Class, ClassTable, bit_width, content, forced_by_selection, number};
use hb_nat::{Improvement, NatArg, NatFact, improve};
use hb_types::{Atom, Form};
use hb_unique::UniqueTypes;

/// A number that is known, or the open argument of this place.
fn known_or_open(of: Option<u64>, is_open: bool, place: u32) -> NatArg {
    match of {
        Some(number) => if is_open {
            NatArg::Open(place)
        } else {
            NatArg::Known(number)
        },
        None => NatArg::Open(place),
    }
}

/// The fact of a predicate on two or three numbers, of which the one at a place is taken to be open.
fn fact_of(class: Class, numbers: [Option<u64>; 3], open: u32) -> Option<NatFact> {
    let [n, m, p] = numbers;
    let first = known_or_open(n, open == 0, 0);
    let second = known_or_open(m, open == 1, 1);
    let third = known_or_open(p, open == 2, 2);
    match class {
        Class::Sum => Some(NatFact::Sum(first, second, third)),
        Class::Product => Some(NatFact::Product(first, second, third)),
        Class::Power => Some(NatFact::Power(first, second)),
        _ => None,
    }
}

/// The number that a predicate on numbers forces its argument at a place to be, from the others alone.
fn forced_at(class: Class, numbers: [Option<u64>; 3], open: u32) -> Option<u64> {
    match improve(fact_of(class, numbers, open)?) {
        Improvement::Know(place, number) => if place == open { Some(number) } else { None },
        Improvement::Nothing | Improvement::Never => None,
    }
}

/// The number of the argument at a place, if it is one.
fn number_at(types: &UniqueTypes, args: &[usize], place: usize) -> Option<u64> {
    match args.get(place) {
        Some(arg) => number(types, *arg),
        None => None,
    }
}

/// The number that a predicate on numbers forces its argument at a place to be, from the others alone.
pub fn forced_number(
    types: &UniqueTypes,
    class: Class,
    args: &[usize],
    open: usize,
) -> Option<u64> {
    let numbers = [
        number_at(types, args, 0),
        number_at(types, args, 1),
        number_at(types, args, 2),
    ];
    let place = u32::try_from(open).ok()?;
    forced_at(class, numbers, place)
}

/// The type that a predicate of bit data, a cell, a selection or an update forces its second argument to be, from the
/// first.
pub fn forced_second(
    table: &ClassTable,
    types: &mut UniqueTypes,
    class: Class,
    first: usize,
) -> Result<Option<usize>, Memory> {
    match class {
        Class::BitRep => match bit_width(table, types, first) {
            Some(width) => Ok(Some(types.leaf(Atom::Nat(width as u64))?)),
            None => Ok(None),
        },
        Class::Cell => Ok(content(types, first)),
        _ => forced_by_selection(table, types, class, first),
    }
}

/// The parts of an application.
fn parts(types: &UniqueTypes, place: usize) -> Option<(usize, usize)> {
    match types.form(place) {
        Some(Form::Apply(f, x)) => Some((f, x)),
        _ => None,
    }
}

/// The unknown that hides what a type is from outside: the type itself, its constructor, or the argument of that.
pub fn hiding(types: &UniqueTypes, place: usize) -> Option<u64> {
    if let Some(number) = types.unknown(place) {
        return Some(number);
    }
    let (function, argument) = parts(types, place)?;
    match types.unknown(function) {
        Some(number) => Some(number),
        None => types.unknown(argument),
    }
}
