//! Instructions by their names, and how they are put at the end of a program.

use crate::registers::{STACK, ZERO};
use crate::splitting::{lower_part, upper_part};
use hb_asm::{AluOp, BranchOp, Instr, LoadOp, StoreOp};
use hb_base::{List, Memory};
use hb_labelled::Part;

/// Puts one instruction at the end.
pub fn push(parts: &mut List<Part>, instr: Instr) -> Result<(), Memory> {
    parts.push(Part::Instr(instr))
}

/// rd gets the upper part of a number.
pub fn lui(rd: u8, number: u32) -> Instr {
    Instr::Lui {
        rd,
        imm: upper_part(number),
    }
}

/// rd gets the sum of rs1 and a number.
pub fn addi(rd: u8, rs1: u8, imm: i32) -> Instr {
    Instr::OpImm {
        op: AluOp::Add,
        rd,
        rs1,
        imm,
    }
}

/// rd gets what the operation computes.
pub fn op(op: AluOp, rd: u8, rs1: u8, rs2: u8) -> Instr {
    Instr::Op { op, rd, rs1, rs2 }
}

/// rd gets a word, so many bytes above the address in rs1.
pub fn lw(rd: u8, rs1: u8, imm: i32) -> Instr {
    Instr::Load {
        op: LoadOp::Lw,
        rd,
        rs1,
        imm,
    }
}

/// The word in rs2 is written, so many bytes above the address in rs1.
pub fn sw(rs1: u8, rs2: u8, imm: i32) -> Instr {
    Instr::Store {
        op: StoreOp::Sw,
        rs1,
        rs2,
        imm,
    }
}

/// Goes on at this distance in bytes where rs1 is not below rs2, both without a sign.
pub fn bgeu(rs1: u8, rs2: u8, distance: i32) -> Instr {
    Instr::Branch {
        op: BranchOp::Bgeu,
        rs1,
        rs2,
        imm: distance,
    }
}

/// Goes to the address in rs1.
pub fn jump_to(rs1: u8) -> Instr {
    Instr::Jalr {
        rd: ZERO,
        rs1,
        imm: 0,
    }
}

/// Puts the code that sets a register to a number.
pub fn push_number(parts: &mut List<Part>, register: u8, number: u32) -> Result<(), Memory> {
    push(parts, lui(register, number))?;
    push(parts, addi(register, register, lower_part(number)))
}

/// Puts the code that sets a register to what stands so many bytes above x2, but for the lower part of the number.
pub fn push_above_stack(parts: &mut List<Part>, register: u8, bytes: u32) -> Result<(), Memory> {
    push(parts, lui(register, bytes))?;
    push(parts, op(AluOp::Add, register, register, STACK))
}
