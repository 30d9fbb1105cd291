use crate::operands::{operand, push_copy, words_of_all};
use crate::site::Spot;
use hb_base::{List, Memory};
use hb_frames::{Step, Tail};
use hb_mil::{Atom, Tail as MilTail};
use std::alloc::Global;

/// Puts the steps that a tail of a block begins with, and gives the tail. `Memory` where memory runs out.
pub fn push_tail(
    alloc: Global,
    steps: &mut List<Step>,
    spot: Spot,
    tail: &MilTail,
) -> Result<Tail, Memory> {
    match tail {
        MilTail::Return(a) => Ok(Tail::Return(words_of_all(alloc, spot, &[*a])?)),
        MilTail::Jump(block, atoms) => jump(alloc, spot, *block, atoms.as_slice()),
        MilTail::Enter(function, argument) => {
            jump(
                alloc,
                spot,
                spot.dispatch(*function),
                &[*function, *argument],
            )
        }
        MilTail::Run(action) => jump(alloc, spot, spot.dispatch(*action), &[*action]),
        MilTail::Switch(a, targets) => {
            let targets = Vec::from_slice(alloc, targets.as_slice())?;
            Ok(Tail::Switch(operand(spot, *a), List::of(targets)))
        }
        MilTail::Goto(block, kept, value) => {
            push_kept(steps, spot, *block, *kept, *value)?;
            Ok(Tail::Goto(*block))
        }
        MilTail::Halt(code) => Ok(Tail::Halt(operand(spot, *code))),
        MilTail::Done => Ok(Tail::Done),
    }
}

/// The call of a block, in the place of this one, with the words of these atoms.
fn jump(alloc: Global, spot: Spot, block: u32, atoms: &[Atom]) -> Result<Tail, Memory> {
    Ok(Tail::Jump(block, words_of_all(alloc, spot, atoms)?))
}

/// Puts the steps that copy a value to the place that it has as a parameter of a block, behind so many locals.
fn push_kept(
    steps: &mut List<Step>,
    spot: Spot,
    block: u32,
    kept: u32,
    value: Option<Atom>,
) -> Result<(), Memory> {
    match (value, spot.site.places.get(block, kept)) {
        (Some(a), Some(to)) => push_copy(steps, spot, to, a),
        _ => Ok(()),
    }
}
