use crate::site::Spot;
use hb_base::{List, Memory};
use hb_frames::{Operand, Step};
use hb_mil::Atom;
use hb_word_steps::{low_word, push_set};
use std::alloc::Global;

/// The first word of what an atom is.
pub(crate) fn operand(spot: Spot, a: Atom) -> Operand {
    match a {
        Atom::Local(local) => match spot.site.places.get(spot.number, local) {
            Some(place) => Operand::Word(place),
            None => Operand::Number(0),
        },
        Atom::Number(number) => Operand::Number(low_word(number)),
        Atom::Area(area) => Operand::Number(address_at(spot.site.areas, area)),
        Atom::Port(port) => Operand::Number(address_at(spot.site.ports, port)),
    }
}

/// The address of this number.
pub(crate) fn address_at(addresses: &[u32], number: u32) -> u32 {
    match addresses.get(number as usize) {
        Some(address) => *address,
        None => 0,
    }
}

/// How many words an atom is.
pub(crate) fn words_at(spot: Spot, a: Atom) -> u32 {
    match a {
        Atom::Local(local) => spot.words(local),
        _ => 1,
    }
}

/// Puts the words of an atom at the end.
fn push_words(operands: &mut Vec<Operand>, spot: Spot, a: Atom) -> Result<(), Memory> {
    match operand(spot, a) {
        Operand::Word(first) => {
            for place in 0..words_at(spot, a) {
                operands.push(Operand::Word(first.saturating_add(place)))?;
            }
        }
        number => {
            if words_at(spot, a) > 0 {
                operands.push(number)?;
            }
        }
    }
    Ok(())
}

/// The words of atoms, one after another.
pub(crate) fn words_of_all(
    alloc: Global,
    spot: Spot,
    atoms: &[Atom],
) -> Result<List<Operand>, Memory> {
    let mut operands = Vec::new(alloc);
    for a in atoms {
        push_words(&mut operands, spot, *a)?;
    }
    Ok(List::of(operands))
}

/// Puts the steps that copy words from one place to another, the first one first.
pub(crate) fn push_copies(
    steps: &mut List<Step>,
    to: u32,
    from: u32,
    words: u32,
) -> Result<(), Memory> {
    if to == from {
        return Ok(());
    }
    for place in 0..words {
        let a = Operand::Word(from.saturating_add(place));
        push_set(steps, to.saturating_add(place), a)?;
    }
    Ok(())
}

/// Puts the steps that copy an atom to a place.
pub(crate) fn push_copy(
    steps: &mut List<Step>,
    spot: Spot,
    to: u32,
    a: Atom,
) -> Result<(), Memory> {
    let words = words_at(spot, a);
    match operand(spot, a) {
        Operand::Word(from) => push_copies(steps, to, from, words),
        number => {
            if words > 0 {
                return push_set(steps, to, number);
            }
            Ok(())
        }
    }
}
