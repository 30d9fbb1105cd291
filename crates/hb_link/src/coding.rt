//! Words of instructions, also of those that have none.

ghost use Rattle.std.specs.Prelude.{IsTrue};
ghost use Rattle.hb_asm.specs.declared.instr.AluOp.TheVariants as operation;
ghost use Rattle.hb_asm.specs.InRange.{InRange, IsAluImmediate, IsImmediate, IsBranchOffset, IsJumpOffset, IsRegister};

use hb_asm::{AluOp, Instr, encode};

/// Whether a number is one of a register.
fn is_register(number: u8) -> bool
    ensures { IsTrue result → IsRegister number }
{
    number < 32
}

/// Whether a number has 12 bits, one of them for its sign.
fn is_immediate(number: i32) -> bool
    ensures { IsTrue result → IsImmediate number }
{
    number >= -2_048 && number <= 2_047
}

/// Whether a number is a shift's amount.
fn is_amount(number: i32) -> bool
    ensures { IsTrue result → IsAluImmediate operation.Sll number }
{
    number >= 0 && number <= 31
}

/// Whether a number is a branch's distance.
fn is_branch_offset(number: i32) -> bool
    ensures { IsTrue result → IsBranchOffset number }
{
    number >= -4_096 && number <= 4_094 && number % 2 == 0
}

/// Whether a number is a jump's distance.
fn is_jump_offset(number: i32) -> bool
    ensures { IsTrue result → IsJumpOffset number }
{
    number >= -1_048_576 && number <= 1_048_574 && number % 2 == 0
}

/// Whether an operation takes a number.
fn is_alu_immediate(op: AluOp, number: i32) -> bool
    ensures { IsTrue result → IsAluImmediate op number }
{
    match op {
        AluOp::Sub => false,
        AluOp::Sll | AluOp::Srl | AluOp::Sra => is_amount(number),
        _ => is_immediate(number),
    }
}

/// Whether the fields of an instruction are in range.
fn is_in_range(instr: Instr) -> bool
    ensures { IsTrue result → InRange instr }
{
    match instr {
        Instr::Lui { rd, imm } | Instr::Auipc { rd, imm } => is_register(rd) && imm < 0x10_0000,
        Instr::Jal { rd, imm } => is_register(rd) && is_jump_offset(imm),
        Instr::Jalr { rd, rs1, imm } => is_register(rd) && is_register(rs1) && is_immediate(imm),
        Instr::Branch {
            op: _,
            rs1,
            rs2,
            imm,
        } => { is_register(rs1) && is_register(rs2) && is_branch_offset(imm) }
        Instr::Load {
            op: _,
            rd,
            rs1,
            imm,
        } => { is_register(rd) && is_register(rs1) && is_immediate(imm) }
        Instr::Store {
            op: _,
            rs1,
            rs2,
            imm,
        } => { is_register(rs1) && is_register(rs2) && is_immediate(imm) }
        Instr::OpImm { op, rd, rs1, imm } => {
            is_register(rd) && is_register(rs1) && is_alu_immediate(op, imm)
        }
        Instr::Op {
            op: _,
            rd,
            rs1,
            rs2,
        } => is_register(rd) && is_register(rs1) && is_register(rs2),
        Instr::Fence { high, rd } => high < 0x2_0000 && is_register(rd),
        Instr::Ecall | Instr::Ebreak => true,
    }
}

/// The word of an instruction; 0, which codes none, where a field is out of range.
pub fn word_of(instr: Instr) -> u32 {
    if is_in_range(instr) { encode(instr) } else { 0 }
}
