//! Multiplication and division: calls of routines that stand once, behind all blocks. Their operands are in x10 and
//! x11; the product or quotient is left in x10, and the remainder in x11.

use crate::instructions::{jump_to, push};
use crate::registers::LINK;
use hb_asm::Instr;
use hb_base::{List, Memory};
use hb_labelled::Part;
use hb_rt::{divide_code, multiply_code};
use std::alloc::Global;

/// The labels below this one belong to routines.
const FIRST_BLOCK: u32 = 16;

/// The label of the routine that multiplies.
pub const MULTIPLY: u32 = 1;

/// The label of the routine that divides.
pub const DIVIDE: u32 = 2;

/// The label of a block.
pub fn label_of(block: u32) -> u32 {
    block.saturating_add(FIRST_BLOCK)
}

/// Puts a routine under its label, and its return.
fn push_routine(parts: &mut List<Part>, label: u32, routine: &[Instr]) -> Result<(), Memory> {
    parts.push(Part::Label(label))?;
    for instr in routine {
        push(parts, *instr)?;
    }
    push(parts, jump_to(LINK))
}

/// Puts all routines.
pub fn push_routines(alloc: Global, parts: &mut List<Part>) -> Result<(), Memory> {
    let multiply = multiply_code(alloc)?;
    push_routine(parts, MULTIPLY, multiply.as_slice())?;
    let divide = divide_code(alloc)?;
    push_routine(parts, DIVIDE, divide.as_slice())
}
