use crate::addresses::{Addresses, CODE_BASE, size_of};
use crate::coding::word_of;
use crate::distances::{lower_part, upper_part};
use hb_asm::{BranchOp, Instr};
use hb_base::{List, Memory};
use hb_labelled::{Labelled, Part};
use std::alloc::Global;

/// The register by way of which jumps and branches go.
const WAY: u8 = 5;

/// The register in which a call leaves the address after it.
const LINK: u8 = 1;

const ZERO: u8 = 0;

/// Puts the word of one instruction at the end.
fn push(words: &mut Vec<u32>, instr: Instr) -> Result<(), Memory> {
    words.push(word_of(instr))?;
    Ok(())
}

/// Puts the jump that goes from its own address to a target by way of one register, and leaves in another one the
/// address after it.
fn push_far(words: &mut Vec<u32>, way: u8, link: u8, from: u32, target: u32) -> Result<(), Memory> {
    let distance = target.wrapping_sub(from);
    push(
        words,
        Instr::Auipc {
            rd: way,
            imm: upper_part(distance),
        },
    )?;
    push(
        words,
        Instr::Jalr {
            rd: link,
            rs1: way,
            imm: lower_part(distance),
        },
    )
}

/// The condition that holds where this one does not.
fn inverted(op: BranchOp) -> BranchOp {
    match op {
        BranchOp::Beq => BranchOp::Bne,
        BranchOp::Bne => BranchOp::Beq,
        BranchOp::Blt => BranchOp::Bge,
        BranchOp::Bge => BranchOp::Blt,
        BranchOp::Bltu => BranchOp::Bgeu,
        BranchOp::Bgeu => BranchOp::Bltu,
    }
}

/// Puts a jump over which the inverted condition leads.
fn push_branch(
    words: &mut Vec<u32>,
    op: BranchOp,
    registers: (u8, u8),
    from: u32,
    target: u32,
) -> Result<(), Memory> {
    push(
        words,
        Instr::Branch {
            op: inverted(op),
            rs1: registers.0,
            rs2: registers.1,
            imm: 12,
        },
    )?;
    push_far(words, WAY, ZERO, from.wrapping_add(4), target)
}

/// Puts the words of a part that stands at an address.
fn push_part(
    words: &mut Vec<u32>,
    addresses: &Addresses,
    part: &Part,
    here: u32,
) -> Result<(), Memory> {
    match part {
        Part::Instr(instr) => push(words, *instr),
        Part::Label(_) => Ok(()),
        Part::Goto(label) => push_far(words, WAY, ZERO, here, addresses.of_label(*label)),
        Part::Call(label) => push_far(words, LINK, LINK, here, addresses.of_label(*label)),
        Part::Branch(op, a, b, label) => {
            push_branch(words, *op, (*a, *b), here, addresses.of_label(*label))
        }
    }
}

/// The words of a program with labels, the first of which stands at 00010000. A jump to a label goes as far as it
/// may: AUIPC adds the upper part of the distance to the address, and JALR the lower part. Under a condition they
/// stand behind a branch over them with the inverted condition. A label that does not stand in the program is at
/// address 0, and an instruction with a field out of range has the word 0. `Memory` where memory runs out.
pub fn link(alloc: Global, labelled: &Labelled) -> Result<List<u32>, Memory> {
    let parts = labelled.parts.as_slice();
    let addresses = Addresses::of(alloc, parts)?;
    let mut words = Vec::new(alloc);
    let mut here = CODE_BASE;
    for part in parts {
        push_part(&mut words, &addresses, part, here)?;
        here = here.wrapping_add(size_of(part));
    }
    Ok(List::of(words))
}
