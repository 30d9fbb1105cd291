//! Blocks: how they are entered and left, and what stands between.

use crate::instructions::{bgeu, lw, op, push, push_number, sw};
use crate::places::{shared_link, stack_end};
use crate::registers::{ADDRESS, LINK, STACK};
use crate::routines::label_of;
use crate::steps::push_step;
use crate::tails::{push_end, push_tail};
use crate::words::{push_get, push_parameters, push_put};
use hb_asm::AluOp;
use hb_base::{List, Memory};
use hb_frames::{Block, Home};
use hb_labelled::Part;

/// Puts the code that ends the run where a frame of so many bytes would reach below the lowest address of the stack.
fn push_check(parts: &mut List<Part>, room: u32, stack: u32) -> Result<(), Memory> {
    push_number(parts, ADDRESS, stack_end(stack).saturating_add(room))?;
    push(parts, bgeu(STACK, ADDRESS, 12))?;
    push_end(parts, 2)
}

/// Puts the code that takes a frame of so many bytes, with the return address in its last word.
fn push_frame(parts: &mut List<Part>, room: u32, stack: u32) -> Result<(), Memory> {
    push_check(parts, room, stack)?;
    push(parts, sw(STACK, LINK, -4))?;
    push_number(parts, ADDRESS, room)?;
    push(parts, op(AluOp::Sub, STACK, STACK, ADDRESS))
}

/// Puts the code that gives a frame of so many bytes back, and gets the return address from its last word.
fn push_frame_back(parts: &mut List<Part>, room: u32) -> Result<(), Memory> {
    push_number(parts, ADDRESS, room)?;
    push(parts, op(AluOp::Add, STACK, STACK, ADDRESS))?;
    push(parts, lw(LINK, STACK, -4))
}

/// Puts the code with which a block is left for good. Blocks with which the program begins have nothing to give back.
pub fn push_leave(parts: &mut List<Part>, home: Home) -> Result<(), Memory> {
    match home {
        Home::Stack(room) => push_frame_back(parts, room),
        Home::Shared => push_get(parts, LINK, shared_link()),
        Home::Start => Ok(()),
    }
}

/// Puts the code with which a block begins where it is called. On the shared words the arguments stay in their place.
fn push_entry(
    parts: &mut List<Part>,
    home: Home,
    parameters: &[Option<u32>],
    stack: u32,
) -> Result<(), Memory> {
    match home {
        Home::Stack(room) => {
            push_frame(parts, room, stack)?;
            push_parameters(parts, home, parameters)
        }
        Home::Shared => push_put(parts, LINK, shared_link()),
        Home::Start => push_parameters(parts, home, parameters),
    }
}

/// Puts the code of the block of this number.
pub fn push_block(
    parts: &mut List<Part>,
    number: u32,
    block: &Block,
    stack: u32,
) -> Result<(), Memory> {
    parts.push(Part::Label(label_of(number)))?;
    if let Some(parameters) = &block.entry {
        push_entry(parts, block.home, parameters.as_slice(), stack)?;
    }
    for step in block.steps.as_slice() {
        push_step(parts, block.home, step)?;
    }
    push_tail(parts, block.home, &block.tail)
}
