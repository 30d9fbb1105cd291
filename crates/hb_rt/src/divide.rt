ghost use Rattle.std.specs.Prelude.{IfOk};
ghost use Rattle.hb_rt.specs.Divide.{Divides};

use crate::mnemonics::{add, addi, and, bne, slli, sltu, srli, sub};
use hb_asm::Instr;
use hb_base::{List, Memory};
use std::alloc::Global;

const ZERO: u8 = 0;

const REMAINDER: u8 = 5;

const TURNS: u8 = 6;

const QUOTIENT: u8 = 7;

const DIVIDEND: u8 = 10;

const DIVISOR: u8 = 11;

const PART: u8 = 28;

/// The routine that divides x10 by x11, into the quotient in x10 and the remainder in x11. It is long division in
/// binary: each of 32 turns brings the next bit of the dividend down to the remainder, and takes the divisor off where
/// it fits. It may stand anywhere in the code, and goes on right behind its last instruction.
pub fn divide_code(alloc: Global) -> Result<List<Instr>, Memory>
    ensures { IfOk result Divides }
{
    let code = vec![in alloc;
        addi(REMAINDER, ZERO, 0),
        addi(TURNS, ZERO, 32),
        addi(QUOTIENT, ZERO, 0),
        slli(REMAINDER, REMAINDER, 1),
        srli(PART, DIVIDEND, 31),
        add(REMAINDER, REMAINDER, PART),
        slli(DIVIDEND, DIVIDEND, 1),
        slli(QUOTIENT, QUOTIENT, 1),
        sltu(PART, REMAINDER, DIVISOR),
        addi(PART, PART, -1),
        sub(QUOTIENT, QUOTIENT, PART),
        and(PART, PART, DIVISOR),
        sub(REMAINDER, REMAINDER, PART),
        addi(TURNS, TURNS, -1),
        bne(TURNS, ZERO, -44),
        addi(DIVIDEND, QUOTIENT, 0),
        addi(DIVISOR, REMAINDER, 0),
    ]?;
    Ok(List::of(code))
}
