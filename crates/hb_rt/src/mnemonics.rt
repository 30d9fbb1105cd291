ghost use Rattle.std.specs.Prelude.{◌≡◌};

use hb_asm::{AluOp, BranchOp, Instr};

/// rd gets the sum of rs1 and a number.
pub(crate) fn addi(rd: u8, rs1: u8, imm: i32) -> Instr
    ensures { result ≡ Instr.OpImm AluOp.Add rd rs1 imm }
{
    Instr::OpImm {
        op: AluOp::Add,
        rd,
        rs1,
        imm,
    }
}

/// rd gets the bits that rs1 and a number share.
pub(crate) fn andi(rd: u8, rs1: u8, imm: i32) -> Instr
    ensures { result ≡ Instr.OpImm AluOp.And rd rs1 imm }
{
    Instr::OpImm {
        op: AluOp::And,
        rd,
        rs1,
        imm,
    }
}

/// rd gets rs1, shifted left by so many bits.
pub(crate) fn slli(rd: u8, rs1: u8, amount: i32) -> Instr
    ensures { result ≡ Instr.OpImm AluOp.Sll rd rs1 amount }
{
    Instr::OpImm {
        op: AluOp::Sll,
        rd,
        rs1,
        imm: amount,
    }
}

/// rd gets rs1, shifted right by so many bits. Zeros come in.
pub(crate) fn srli(rd: u8, rs1: u8, amount: i32) -> Instr
    ensures { result ≡ Instr.OpImm AluOp.Srl rd rs1 amount }
{
    Instr::OpImm {
        op: AluOp::Srl,
        rd,
        rs1,
        imm: amount,
    }
}

/// rd gets the sum.
pub(crate) fn add(rd: u8, rs1: u8, rs2: u8) -> Instr
    ensures { result ≡ Instr.Op AluOp.Add rd rs1 rs2 }
{
    Instr::Op {
        op: AluOp::Add,
        rd,
        rs1,
        rs2,
    }
}

/// rd gets rs1 without rs2.
pub(crate) fn sub(rd: u8, rs1: u8, rs2: u8) -> Instr
    ensures { result ≡ Instr.Op AluOp.Sub rd rs1 rs2 }
{
    Instr::Op {
        op: AluOp::Sub,
        rd,
        rs1,
        rs2,
    }
}

/// rd gets the bits that both share.
pub(crate) fn and(rd: u8, rs1: u8, rs2: u8) -> Instr
    ensures { result ≡ Instr.Op AluOp.And rd rs1 rs2 }
{
    Instr::Op {
        op: AluOp::And,
        rd,
        rs1,
        rs2,
    }
}

/// rd gets 1 where rs1 is below rs2, both without a sign, and 0 elsewhere.
pub(crate) fn sltu(rd: u8, rs1: u8, rs2: u8) -> Instr
    ensures { result ≡ Instr.Op AluOp.Sltu rd rs1 rs2 }
{
    Instr::Op {
        op: AluOp::Sltu,
        rd,
        rs1,
        rs2,
    }
}

/// Goes on at this distance in bytes where the two differ.
pub(crate) fn bne(rs1: u8, rs2: u8, distance: i32) -> Instr
    ensures { result ≡ Instr.Branch BranchOp.Bne rs1 rs2 distance }
{
    Instr::Branch {
        op: BranchOp::Bne,
        rs1,
        rs2,
        imm: distance,
    }
}
