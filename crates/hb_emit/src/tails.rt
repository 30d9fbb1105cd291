//! What each tail of a block becomes.

use crate::blocks::push_leave;
use crate::instructions::{addi, jump_to, push};
use crate::registers::{END, FIRST, LINK, ZERO};
use crate::routines::label_of;
use crate::words::{push_operand, push_passed};
use hb_asm::{BranchOp, Instr};
use hb_base::{List, Memory};
use hb_frames::{Home, Operand, Tail};
use hb_labelled::Part;

/// Puts the code that ends the run in the way of this number.
pub fn push_end(parts: &mut List<Part>, way: i32) -> Result<(), Memory> {
    push(parts, addi(END, ZERO, way))?;
    push(parts, Instr::Ecall)
}

/// Puts the code that halts with an operand.
fn push_halt(parts: &mut List<Part>, home: Home, code: Operand) -> Result<(), Memory> {
    push_operand(parts, FIRST, home, code)?;
    push_end(parts, 1)
}

/// Puts the code that leaves a call with its results.
fn push_return(parts: &mut List<Part>, home: Home, results: &[Operand]) -> Result<(), Memory> {
    push_passed(parts, home, results)?;
    push_leave(parts, home)?;
    push(parts, jump_to(LINK))
}

/// Puts the code that calls a block in the place of this one.
fn push_jump(
    parts: &mut List<Part>,
    home: Home,
    block: u32,
    arguments: &[Operand],
) -> Result<(), Memory> {
    push_passed(parts, home, arguments)?;
    push_leave(parts, home)?;
    parts.push(Part::Goto(label_of(block)))
}

/// Puts the test for one block: x10 counts down to it, and is 0 there.
fn push_case(parts: &mut List<Part>, block: u32) -> Result<(), Memory> {
    parts.push(Part::Branch(BranchOp::Beq, FIRST, ZERO, label_of(block)))?;
    push(parts, addi(FIRST, FIRST, -1))
}

/// Puts the code that goes to the block of a number. There is a breakpoint behind the last.
fn push_switch(
    parts: &mut List<Part>,
    home: Home,
    number: Operand,
    blocks: &[u32],
) -> Result<(), Memory> {
    push_operand(parts, FIRST, home, number)?;
    for block in blocks {
        push_case(parts, *block)?;
    }
    push(parts, Instr::Ebreak)
}

/// Puts the code of the tail of a block with this home.
pub fn push_tail(parts: &mut List<Part>, home: Home, tail: &Tail) -> Result<(), Memory> {
    match tail {
        Tail::Done => push_end(parts, 0),
        Tail::Halt(code) => push_halt(parts, home, *code),
        Tail::Return(results) => push_return(parts, home, results.as_slice()),
        Tail::Goto(block) => parts.push(Part::Goto(label_of(*block))),
        Tail::Jump(block, arguments) => push_jump(parts, home, *block, arguments.as_slice()),
        Tail::Switch(number, blocks) => push_switch(parts, home, *number, blocks.as_slice()),
    }
}
