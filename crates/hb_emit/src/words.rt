//! Words of frames, arguments and results, to registers and back.

use crate::instructions::{lui, lw, push, push_above_stack, push_number, sw};
use crate::places::{Place, passed, place_of};
use crate::registers::{ADDRESS, FIRST};
use crate::splitting::lower_part;
use hb_base::{List, Memory};
use hb_frames::{Home, Operand};
use hb_labelled::Part;

/// Puts the code that leaves in a register the address of a place, but for its lower part. It answers that part.
fn push_place(parts: &mut List<Part>, register: u8, place: Place) -> Result<i32, Memory> {
    match place {
        Place::Frame(bytes) => {
            push_above_stack(parts, register, bytes)?;
            Ok(lower_part(bytes))
        }
        Place::At(address) => {
            push(parts, lui(register, address))?;
            Ok(lower_part(address))
        }
    }
}

/// Puts the code that leaves the word at a place in a register.
pub fn push_get(parts: &mut List<Part>, register: u8, place: Place) -> Result<(), Memory> {
    let low = push_place(parts, register, place)?;
    push(parts, lw(register, register, low))
}

/// Puts the code that writes a register to the word at a place.
pub fn push_put(parts: &mut List<Part>, register: u8, place: Place) -> Result<(), Memory> {
    let low = push_place(parts, ADDRESS, place)?;
    push(parts, sw(ADDRESS, register, low))
}

/// Puts the code that leaves an operand in a register.
pub fn push_operand(
    parts: &mut List<Part>,
    register: u8,
    home: Home,
    operand: Operand,
) -> Result<(), Memory> {
    match operand {
        Operand::Number(number) => push_number(parts, register, number),
        Operand::Word(word) => push_get(parts, register, place_of(home, word)),
    }
}

/// Puts the code that hands over one argument or result.
fn push_passed_one(
    parts: &mut List<Part>,
    home: Home,
    number: u32,
    operand: Operand,
) -> Result<(), Memory> {
    push_operand(parts, FIRST, home, operand)?;
    push_put(parts, FIRST, passed(number))
}

/// Puts the code that hands over arguments or results, the first one first.
pub fn push_passed(parts: &mut List<Part>, home: Home, operands: &[Operand]) -> Result<(), Memory> {
    let mut number = 0u32;
    for operand in operands {
        push_passed_one(parts, home, number, *operand)?;
        number = number.saturating_add(1);
    }
    Ok(())
}

/// Puts the code that takes one argument or result into a word of the frame.
fn push_taken_one(
    parts: &mut List<Part>,
    home: Home,
    number: u32,
    word: u32,
) -> Result<(), Memory> {
    push_get(parts, FIRST, passed(number))?;
    push_put(parts, FIRST, place_of(home, word))
}

/// Puts the code that takes the results into the words that are named, the first one first.
pub fn push_results(parts: &mut List<Part>, home: Home, words: &[u32]) -> Result<(), Memory> {
    let mut number = 0u32;
    for word in words {
        push_taken_one(parts, home, number, *word)?;
        number = number.saturating_add(1);
    }
    Ok(())
}

/// Puts the code that takes the arguments for which a word is named, the first one first.
pub fn push_parameters(
    parts: &mut List<Part>,
    home: Home,
    words: &[Option<u32>],
) -> Result<(), Memory> {
    let mut number = 0u32;
    for word in words {
        if let Some(word) = word {
            push_taken_one(parts, home, number, *word)?;
        }
        number = number.saturating_add(1);
    }
    Ok(())
}
