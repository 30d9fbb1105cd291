ghost use Rattle.std.specs.Prelude.{◌≡◌, ◌^◌, ◌<◌};
ghost use Rattle.hb_asm.specs.Coding.{alu_funct3, alu_funct7, branch_funct3, code_of, load_funct3, op_imm_word, store_funct3};
ghost use Rattle.hb_asm.specs.Formats.{b_word, i_word, j_word, r_word, s_word, u_word};
ghost use Rattle.hb_asm.specs.InRange.{InRange, IsAluImmediate, IsRegister};

use crate::fields::{bits, low_12, low_13, low_21};
use crate::instr::{AluOp, BranchOp, Instr, LoadOp, StoreOp};

/// The word of an instruction whose fields are in range. Takes no memory.
#[tactic(auto, unfolding(crate::specs::Coding::code_of))]
pub fn encode(i: Instr) -> u32
    requires { InRange i }
    ensures { result ≡ code_of i }
{
    match i {
        Instr::Lui { rd, imm } => u_word(0b0110111, rd, imm),
        Instr::Auipc { rd, imm } => u_word(0b0010111, rd, imm),
        Instr::Jal { rd, imm } => j_word(0b1101111, rd, low_21(imm)),
        Instr::Jalr { rd, rs1, imm } => i_word(0b1100111, rd, 0b000, rs1, low_12(imm)),
        Instr::Branch { op, rs1, rs2, imm } => b_word(
            0b1100011,
            branch_funct3(op),
            rs1,
            rs2,
            low_13(imm),
        ),
        Instr::Load { op, rd, rs1, imm } => i_word(
            0b0000011,
            rd,
            load_funct3(op),
            rs1,
            low_12(imm),
        ),
        Instr::Store { op, rs1, rs2, imm } => s_word(
            0b0100011,
            store_funct3(op),
            rs1,
            rs2,
            low_12(imm),
        ),
        Instr::OpImm { op, rd, rs1, imm } => op_imm_word(op, rd, rs1, imm),
        Instr::Op { op, rd, rs1, rs2 } => r_word(
            0b0110011,
            rd,
            alu_funct3(op),
            rs1,
            rs2,
            alu_funct7(op),
        ),
        Instr::Fence { high, rd } => 0b0001111 + (u32::from(rd) << 7) + (high << 15),
        Instr::Ecall => 0x0000_0073,
        Instr::Ebreak => 0x0010_0073,
    }
}

fn branch_funct3(op: BranchOp) -> u32
    ensures value { result ≡ branch_funct3 op }
    ensures small { result < 8 }
{
    match op {
        BranchOp::Beq => 0b000,
        BranchOp::Bne => 0b001,
        BranchOp::Blt => 0b100,
        BranchOp::Bge => 0b101,
        BranchOp::Bltu => 0b110,
        BranchOp::Bgeu => 0b111,
    }
}

fn load_funct3(op: LoadOp) -> u32
    ensures value { result ≡ load_funct3 op }
    ensures small { result < 8 }
{
    match op {
        LoadOp::Lb => 0b000,
        LoadOp::Lh => 0b001,
        LoadOp::Lw => 0b010,
        LoadOp::Lbu => 0b100,
        LoadOp::Lhu => 0b101,
    }
}

fn store_funct3(op: StoreOp) -> u32
    ensures value { result ≡ store_funct3 op }
    ensures small { result < 8 }
{
    match op {
        StoreOp::Sb => 0b000,
        StoreOp::Sh => 0b001,
        StoreOp::Sw => 0b010,
    }
}

fn alu_funct3(op: AluOp) -> u32
    ensures value { result ≡ alu_funct3 op }
    ensures small { result < 8 }
{
    match op {
        AluOp::Add | AluOp::Sub => 0b000,
        AluOp::Sll => 0b001,
        AluOp::Slt => 0b010,
        AluOp::Sltu => 0b011,
        AluOp::Xor => 0b100,
        AluOp::Srl | AluOp::Sra => 0b101,
        AluOp::Or => 0b110,
        AluOp::And => 0b111,
    }
}

fn alu_funct7(op: AluOp) -> u32
    ensures value { result ≡ alu_funct7 op }
    ensures small { result < 128 }
{
    match op {
        AluOp::Sub | AluOp::Sra => 0b0100000,
        _ => 0b0000000,
    }
}

/// Two source registers and a destination.
fn r_word(opcode: u32, rd: u8, funct3: u32, rs1: u8, rs2: u8, funct7: u32) -> u32
    requires opcode { opcode < 128 }
    requires rd { IsRegister rd }
    requires funct3 { funct3 < 8 }
    requires rs1 { IsRegister rs1 }
    requires rs2 { IsRegister rs2 }
    requires funct7 { funct7 < 128 }
    ensures { result ≡ r_word opcode rd funct3 rs1 rs2 funct7 }
{
    opcode
        + (u32::from(rd) << 7)
        + (funct3 << 12)
        + (u32::from(rs1) << 15)
        + (u32::from(rs2) << 20)
        + (funct7 << 25)
}

/// An immediate of 12 bits.
fn i_word(opcode: u32, rd: u8, funct3: u32, rs1: u8, imm: u32) -> u32
    requires opcode { opcode < 128 }
    requires rd { IsRegister rd }
    requires funct3 { funct3 < 8 }
    requires rs1 { IsRegister rs1 }
    requires imm { imm < 2 ^ 12 }
    ensures { result ≡ i_word opcode rd funct3 rs1 imm }
{
    opcode + (u32::from(rd) << 7) + (funct3 << 12) + (u32::from(rs1) << 15) + (imm << 20)
}

/// An immediate of 12 bits, cut in two.
fn s_word(opcode: u32, funct3: u32, rs1: u8, rs2: u8, imm: u32) -> u32
    requires opcode { opcode < 128 }
    requires funct3 { funct3 < 8 }
    requires rs1 { IsRegister rs1 }
    requires rs2 { IsRegister rs2 }
    requires imm { imm < 2 ^ 12 }
    ensures { result ≡ s_word opcode funct3 rs1 rs2 imm }
{
    opcode
        + (bits(0, 5, imm) << 7)
        + (funct3 << 12)
        + (u32::from(rs1) << 15)
        + (u32::from(rs2) << 20)
        + (bits(5, 7, imm) << 25)
}

/// An even offset of 13 bits, cut in four.
fn b_word(opcode: u32, funct3: u32, rs1: u8, rs2: u8, imm: u32) -> u32
    requires opcode { opcode < 128 }
    requires funct3 { funct3 < 8 }
    requires rs1 { IsRegister rs1 }
    requires rs2 { IsRegister rs2 }
    requires imm { imm < 2 ^ 13 }
    ensures { result ≡ b_word opcode funct3 rs1 rs2 imm }
{
    opcode
        + (bits(11, 1, imm) << 7)
        + (bits(1, 4, imm) << 8)
        + (funct3 << 12)
        + (u32::from(rs1) << 15)
        + (u32::from(rs2) << 20)
        + (bits(5, 6, imm) << 25)
        + (bits(12, 1, imm) << 31)
}

/// An immediate of 20 bits.
fn u_word(opcode: u32, rd: u8, imm: u32) -> u32
    requires opcode { opcode < 128 }
    requires rd { IsRegister rd }
    requires imm { imm < 2 ^ 20 }
    ensures { result ≡ u_word opcode rd imm }
{
    opcode + (u32::from(rd) << 7) + (imm << 12)
}

/// An even offset of 21 bits, cut in four.
fn j_word(opcode: u32, rd: u8, imm: u32) -> u32
    requires opcode { opcode < 128 }
    requires rd { IsRegister rd }
    requires imm { imm < 2 ^ 21 }
    ensures { result ≡ j_word opcode rd imm }
{
    opcode
        + (u32::from(rd) << 7)
        + (bits(12, 8, imm) << 12)
        + (bits(11, 1, imm) << 20)
        + (bits(1, 10, imm) << 21)
        + (bits(20, 1, imm) << 31)
}

/// An operation with an immediate: that of a shift is an amount, where `Op` has rs2.
fn op_imm_word(op: AluOp, rd: u8, rs1: u8, imm: i32) -> u32
    requires rd { IsRegister rd }
    requires rs1 { IsRegister rs1 }
    requires imm { IsAluImmediate op imm }
    ensures { result ≡ op_imm_word op rd rs1 imm }
{
    match op {
        AluOp::Sll | AluOp::Srl | AluOp::Sra => {
            r_word(
                0b0010011,
                rd,
                alu_funct3(op),
                rs1,
                imm as u8,
                alu_funct7(op),
            )
        }
        _ => i_word(0b0010011, rd, alu_funct3(op), rs1, low_12(imm)),
    }
}
