use crate::operands::{operand, words_of_all};
use crate::site::Spot;
use crate::values::push_value;
use hb_area::CellForm;
use hb_base::{List, Memory};
use hb_frames::{Operand, Step};
use hb_mil::{Atom, Operation, Step as MilStep};
use hb_word_steps::{push_load, push_read_cell, push_set, push_store, push_write_cell};
use std::alloc::Global;

/// Where the result of a step goes: the first of its words and how many these are, or nowhere, where nothing needs it.
type Target = Option<(u32, u32)>;

/// Puts the steps of a step of a block, which sets the local of this number. Of a result that nothing needs only the effect is left.
/// `Memory` where memory runs out.
pub fn push_step(
    alloc: Global,
    steps: &mut List<Step>,
    spot: Spot,
    step: &MilStep,
    local: u32,
) -> Result<(), Memory> {
    let target = target_of(spot, local);
    match &step.operation {
        Operation::Call(block, atoms) => {
            push_call(alloc, steps, spot, *block, atoms.as_slice(), target)
        }
        Operation::Apply(function, argument) => {
            let dispatch = spot.dispatch(*function);
            push_call(
                alloc,
                steps,
                spot,
                dispatch,
                &[*function, *argument],
                target,
            )
        }
        Operation::Perform(action) => {
            let dispatch = spot.dispatch(*action);
            push_call(alloc, steps, spot, dispatch, &[*action], target)
        }
        Operation::ReadCell(..)
        | Operation::ReadPort(..)
        | Operation::WriteCell(..)
        | Operation::Initialise(..)
        | Operation::WritePort(..) => push_access(steps, spot, &step.operation, target),
        operation => match target {
            Some(words) => push_value(alloc, steps, spot, operation, words),
            None => Ok(()),
        },
    }
}

/// Where a local of the block stands.
fn target_of(spot: Spot, local: u32) -> Target {
    let words = spot.words(local);
    if words == 0 {
        return None;
    }
    match spot.site.places.get(spot.number, local) {
        Some(place) => Some((place, words)),
        None => None,
    }
}

/// Puts the call of a block with the words of these atoms.
fn push_call(
    alloc: Global,
    steps: &mut List<Step>,
    spot: Spot,
    block: u32,
    atoms: &[Atom],
    target: Target,
) -> Result<(), Memory> {
    let arguments = words_of_all(alloc, spot, atoms)?;
    let results = results_of(alloc, target)?;
    steps.push(Step::Call(block, arguments, results))?;
    Ok(())
}

/// The words to which a result goes.
fn results_of(alloc: Global, target: Target) -> Result<List<u32>, Memory> {
    let mut results = Vec::new(alloc);
    if let Some((first, words)) = target {
        for place in 0..words {
            results.push(first.saturating_add(place))?;
        }
    }
    Ok(List::of(results))
}

/// Puts the steps of an operation on a cell or a port.
fn push_access(
    steps: &mut List<Step>,
    spot: Spot,
    operation: &Operation,
    target: Target,
) -> Result<(), Memory> {
    match operation {
        Operation::ReadCell(cell, form) => push_read(steps, spot, *cell, *form, target),
        Operation::ReadPort(port, bytes) => {
            push_load(steps, read_word(spot, target), operand(spot, *port), *bytes)
        }
        Operation::WriteCell(cell, form, value) | Operation::Initialise(cell, form, value) => {
            push_write(steps, spot, *cell, *form, *value)?;
            push_unit(steps, target)
        }
        Operation::WritePort(port, bytes, value) => {
            push_store(steps, operand(spot, *port), *bytes, operand(spot, *value))?;
            push_unit(steps, target)
        }
        _ => Ok(()),
    }
}

/// The word that is set to what is read.
fn read_word(spot: Spot, target: Target) -> u32 {
    match target {
        Some((first, _)) => first,
        None => spot.spare(),
    }
}

/// Puts the steps that read a cell.
fn push_read(
    steps: &mut List<Step>,
    spot: Spot,
    cell: Atom,
    form: CellForm,
    target: Target,
) -> Result<(), Memory> {
    let second = spot.spare().saturating_add(1);
    push_read_cell(
        steps,
        read_word(spot, target),
        operand(spot, cell),
        form,
        second,
    )
}

/// Puts the steps that write to a cell.
fn push_write(
    steps: &mut List<Step>,
    spot: Spot,
    cell: Atom,
    form: CellForm,
    value: Atom,
) -> Result<(), Memory> {
    let words = (spot.spare(), spot.spare().saturating_add(1));
    push_write_cell(
        steps,
        operand(spot, cell),
        form,
        operand(spot, value),
        words,
    )
}

/// Puts the step that sets the result to `()`, the only constructor of its type.
fn push_unit(steps: &mut List<Step>, target: Target) -> Result<(), Memory> {
    match target {
        Some((first, _)) => push_set(steps, first, Operand::Number(0)),
        None => Ok(()),
    }
}
