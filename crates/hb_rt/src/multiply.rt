ghost use Rattle.std.specs.Prelude.{IfOk};
ghost use Rattle.hb_rt.specs.Multiply.{Multiplies};

use crate::mnemonics::{add, addi, and, andi, bne, slli, srli, sub};
use hb_asm::Instr;
use hb_base::{List, Memory};
use std::alloc::Global;

const ZERO: u8 = 0;

const SUM: u8 = 5;

const SUMMAND: u8 = 6;

const FIRST: u8 = 10;

const SECOND: u8 = 11;

/// The routine that multiplies x10 by x11 into x10, modulo 2^32. It goes through the bits of the second factor from
/// the lowest up, doubles the first at each, and adds it where the bit is set. It ends where no set bit is left. It
/// may stand anywhere in the code, and goes on right behind its last instruction.
pub fn multiply_code(alloc: Global) -> Result<List<Instr>, Memory>
    ensures { IfOk result Multiplies }
{
    let code = vec![in alloc;
        addi(SUM, ZERO, 0),
        andi(SUMMAND, SECOND, 1),
        sub(SUMMAND, ZERO, SUMMAND),
        and(SUMMAND, SUMMAND, FIRST),
        add(SUM, SUM, SUMMAND),
        slli(FIRST, FIRST, 1),
        srli(SECOND, SECOND, 1),
        bne(SECOND, ZERO, -24),
        addi(FIRST, SUM, 0),
    ]?;
    Ok(List::of(code))
}
