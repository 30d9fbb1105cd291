//! What each step of a block becomes.

use crate::instructions::{op, push};
use crate::places::place_of;
use crate::registers::{FIRST, SECOND};
use crate::routines::{DIVIDE, MULTIPLY, label_of};
use crate::words::{push_operand, push_passed, push_put, push_results};
use hb_asm::{AluOp, Instr, LoadOp, StoreOp};
use hb_base::{List, Memory};
use hb_frames::{Home, Operand, Step};
use hb_labelled::Part;

/// Puts the code that leaves two operands in registers.
fn push_operands(parts: &mut List<Part>, home: Home, a: Operand, b: Operand) -> Result<(), Memory> {
    push_operand(parts, FIRST, home, a)?;
    push_operand(parts, SECOND, home, b)
}

/// Puts the code that sets a word to an operand.
fn push_set(parts: &mut List<Part>, home: Home, word: u32, a: Operand) -> Result<(), Memory> {
    push_operand(parts, FIRST, home, a)?;
    push_put(parts, FIRST, place_of(home, word))
}

/// Puts the code of an operation on two operands.
fn push_alu(
    parts: &mut List<Part>,
    home: Home,
    word: u32,
    operation: AluOp,
    a: Operand,
    b: Operand,
) -> Result<(), Memory> {
    push_operands(parts, home, a, b)?;
    push(parts, op(operation, FIRST, FIRST, SECOND))?;
    push_put(parts, FIRST, place_of(home, word))
}

/// Puts the code of a routine's call. The word gets what the routine leaves in this register.
fn push_routine_call(
    parts: &mut List<Part>,
    home: Home,
    word: u32,
    label: u32,
    operands: (Operand, Operand),
    left: u8,
) -> Result<(), Memory> {
    push_operands(parts, home, operands.0, operands.1)?;
    parts.push(Part::Call(label))?;
    push_put(parts, left, place_of(home, word))
}

/// The load of so many bytes that fills with zeros.
fn load_of(width: u8) -> LoadOp {
    if width == 1 {
        LoadOp::Lbu
    } else if width == 2 {
        LoadOp::Lhu
    } else {
        LoadOp::Lw
    }
}

/// The store of so many bytes.
fn store_of(width: u8) -> StoreOp {
    if width == 1 {
        StoreOp::Sb
    } else if width == 2 {
        StoreOp::Sh
    } else {
        StoreOp::Sw
    }
}

/// Puts the code of a load.
fn push_load(
    parts: &mut List<Part>,
    home: Home,
    word: u32,
    address: Operand,
    width: u8,
) -> Result<(), Memory> {
    push_operand(parts, FIRST, home, address)?;
    push(
        parts,
        Instr::Load {
            op: load_of(width),
            rd: FIRST,
            rs1: FIRST,
            imm: 0,
        },
    )?;
    push_put(parts, FIRST, place_of(home, word))
}

/// Puts the code of a store.
fn push_store(
    parts: &mut List<Part>,
    home: Home,
    address: Operand,
    width: u8,
    a: Operand,
) -> Result<(), Memory> {
    push_operands(parts, home, address, a)?;
    push(
        parts,
        Instr::Store {
            op: store_of(width),
            rs1: FIRST,
            rs2: SECOND,
            imm: 0,
        },
    )
}

/// Puts the code of a call.
fn push_call(
    parts: &mut List<Part>,
    home: Home,
    block: u32,
    arguments: &[Operand],
    results: &[u32],
) -> Result<(), Memory> {
    push_passed(parts, home, arguments)?;
    parts.push(Part::Call(label_of(block)))?;
    push_results(parts, home, results)
}

/// Puts the code of a step of a block with this home.
pub fn push_step(parts: &mut List<Part>, home: Home, step: &Step) -> Result<(), Memory> {
    match step {
        Step::Set(word, a) => push_set(parts, home, *word, *a),
        Step::Alu(word, op, a, b) => push_alu(parts, home, *word, *op, *a, *b),
        Step::Multiply(word, a, b) => {
            push_routine_call(parts, home, *word, MULTIPLY, (*a, *b), FIRST)
        }
        Step::Divide(word, a, b) => {
            push_routine_call(parts, home, *word, DIVIDE, (*a, *b), FIRST)
        }
        Step::Remainder(word, a, b) => {
            push_routine_call(parts, home, *word, DIVIDE, (*a, *b), SECOND)
        }
        Step::Load(word, address, width) => push_load(parts, home, *word, *address, *width),
        Step::Store(address, width, a) => push_store(parts, home, *address, *width, *a),
        Step::Call(block, arguments, results) => {
            push_call(
                parts,
                home,
                *block,
                arguments.as_slice(),
                results.as_slice(),
            )
        }
    }
}
