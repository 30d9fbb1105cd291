use crate::blocks::push_block;
use crate::instructions::push_number;
use crate::places::REGION;
use crate::registers::STACK;
use crate::routines::{label_of, push_routines};
use hb_base::{List, Memory};
use hb_frames::{Block, Frames};
use hb_labelled::{Labelled, Part};
use std::alloc::Global;

/// Puts the code of all blocks in their order.
fn push_blocks(parts: &mut List<Part>, blocks: &[Block], stack: u32) -> Result<(), Memory> {
    let mut number = 0u32;
    for block in blocks {
        push_block(parts, number, block, stack)?;
        number = number.saturating_add(1);
    }
    Ok(())
}

/// The instructions of a flat program with frames. The code sets x2 to the end of the stack and goes to the first
/// block. The blocks stand in their order, the one of number n under the label 16 + n, and then the routines, under
/// labels below 16. Each segment of a step or a tail computes in x6, x10 and x11 and what the routines change.
/// `Memory` where memory runs out.
pub fn emit(alloc: Global, frames: &Frames) -> Result<Labelled, Memory> {
    let mut parts = List::of(Vec::new(alloc));
    push_number(&mut parts, STACK, REGION)?;
    parts.push(Part::Goto(label_of(frames.entry)))?;
    push_blocks(&mut parts, frames.blocks.as_slice(), frames.stack)?;
    push_routines(alloc, &mut parts)?;
    Ok(Labelled { parts })
}
