use crate::operands::{address_at, operand, push_copies, push_copy, words_at};
use crate::site::Spot;
use hb_asm::AluOp;
use hb_base::{List, Memory};
use hb_frames::{Operand, Step};
use hb_mil::{Atom, Operation};
use hb_values::ValueForm;
use hb_word_steps::{
    push_alu, push_cell_at, push_cut, push_has, push_place, push_primitive, push_set,
};
use std::alloc::Global;

/// Puts the steps of an operation that only computes a value, so many words from a place on.
pub(crate) fn push_value(
    alloc: Global,
    steps: &mut List<Step>,
    spot: Spot,
    operation: &Operation,
    (to, words): (u32, u32),
) -> Result<(), Memory> {
    match operation {
        Operation::Primitive(number, numbers, atoms) => {
            let arguments = first_words(alloc, spot, atoms.as_slice())?;
            let results = (to, to.saturating_add(1));
            push_primitive(steps, results, *number, numbers.as_slice(), &arguments)
        }
        Operation::Make(_, label, atoms) => push_tagged(steps, spot, to, *label, atoms),
        Operation::Build(constructor, atoms) => push_tagged(steps, spot, to, *constructor, atoms),
        Operation::Part(a, constructor, place) => {
            let before = words_before(spot, *a, *constructor, *place);
            push_part(steps, spot, (to, words), *a, before)
        }
        Operation::CellAt(area, offset, indices) => {
            let base = address_at(spot.site.areas, *area).wrapping_add(*offset);
            let indices = first_words_of_indices(alloc, spot, indices.as_slice())?;
            push_cell_at(steps, to, base, &indices, spot.spare())
        }
        _ => push_bits(steps, spot, operation, to),
    }
}

/// Puts the steps of an operation on the bits of words, and of a reference to a field.
fn push_bits(
    steps: &mut List<Step>,
    spot: Spot,
    operation: &Operation,
    to: u32,
) -> Result<(), Memory> {
    match operation {
        Operation::Cut(a, place, width) => push_cut(steps, to, operand(spot, *a), *place, *width),
        Operation::Place(a, place, width, part) => {
            let part = operand(spot, *part);
            push_place(steps, to, operand(spot, *a), *place, *width, part)
        }
        Operation::Has(a, mask, value) => push_has(steps, to, operand(spot, *a), *mask, *value),
        Operation::Offset(a, bytes) => {
            let bytes = Operand::Number(*bytes);
            push_alu(steps, to, AluOp::Add, operand(spot, *a), bytes)
        }
        _ => Ok(()),
    }
}

/// The first words of atoms.
fn first_words(alloc: Global, spot: Spot, atoms: &[Atom]) -> Result<Vec<Operand>, Memory> {
    let mut operands = Vec::new(alloc);
    for a in atoms {
        operands.push(operand(spot, *a))?;
    }
    Ok(operands)
}

/// The words of indices, each with its stride.
fn first_words_of_indices(
    alloc: Global,
    spot: Spot,
    indices: &[(Atom, u32)],
) -> Result<Vec<(Operand, u32)>, Memory> {
    let mut operands = Vec::new(alloc);
    for (index, stride) in indices {
        operands.push((operand(spot, *index), *stride))?;
    }
    Ok(operands)
}

/// Puts the steps that set the words from a place on to the number of a constructor or a label and then to what it holds.
fn push_tagged(
    steps: &mut List<Step>,
    spot: Spot,
    to: u32,
    tag: u32,
    atoms: &List<Atom>,
) -> Result<(), Memory> {
    push_set(steps, to, Operand::Number(tag))?;
    let mut next = to.saturating_add(1);
    for a in atoms.as_slice() {
        push_copy(steps, spot, next, *a)?;
        next = next.saturating_add(words_at(spot, *a));
    }
    Ok(())
}

/// Puts the steps that copy a part of a data value, which stands so many words after its first one.
fn push_part(
    steps: &mut List<Step>,
    spot: Spot,
    (to, words): (u32, u32),
    a: Atom,
    before: u32,
) -> Result<(), Memory> {
    match operand(spot, a) {
        Operand::Word(first) => push_copies(steps, to, first.saturating_add(before), words),
        Operand::Number(_) => Ok(()),
    }
}

/// How many words of a data value of this constructor stand before the argument at a place.
fn words_before(spot: Spot, a: Atom, constructor: u32, place: u32) -> u32 {
    let mut before = 1u32;
    if let Some(ValueForm::Data(rows)) = spot.form(a) {
        if let Some(row) = rows.as_slice().get(constructor as usize) {
            let mut left = place;
            for of in row.as_slice() {
                if left == 0 {
                    return before;
                }
                before = before.saturating_add(spot.words_of(*of));
                left -= 1;
            }
        }
    }
    before
}
