ghost use Rattle.std.specs.Prelude.{◌≡◌, IfSome, Some};
ghost use Rattle.hb_asm.specs.Coding.{
  alu_imm_op,
  alu_immediate,
  alu_op,
  branch_of,
  branch_op,
  code_of,
  decode_as,
  decode_of,
  fence_of,
  jalr_of,
  load_of,
  load_op,
  op_imm_of,
  op_of,
  other_op,
  plain_op,
  store_of,
  store_op,
  system_of,
};
ghost use Rattle.hb_asm.specs.Formats.{b_immediate, funct3_in, funct7_in, i_immediate, j_immediate, rd_in, rs1_in, rs2_in, s_immediate};
ghost use Rattle.hb_asm.specs.InRange.{InRange};
ghost use Rattle.hb_asm.specs.declared.instr.Instr.{Instr};

use crate::fields::{bits, sign_extend};
use crate::instr::{AluOp, BranchOp, Instr, LoadOp, StoreOp};

/// The instruction that a word codes, or none. Its fields are in range. Takes no memory.
pub fn decode(word: u32) -> Option<Instr>
    ensures value { result ≡ decode_of word }
    ensures coded { IfSome result (λ i. InRange i × (code_of i ≡ word)) }
    ensures found { (i : Instr) → InRange i → code_of i ≡ word → result ≡ Some i }
{
    by_opcode(word)
}

#[tactic(auto, unfolding(crate::specs::Coding::decode_of, crate::specs::Coding::decode_as))]
fn by_opcode(word: u32) -> Option<Instr>
    ensures { result ≡ decode_of word }
{
    match bits(0, 7, word) {
        0b0110111 => Some(Instr::Lui {
            rd: rd(word),
            imm: bits(12, 20, word),
        }),
        0b0010111 => Some(Instr::Auipc {
            rd: rd(word),
            imm: bits(12, 20, word),
        }),
        0b1101111 => Some(Instr::Jal {
            rd: rd(word),
            imm: j_immediate(word),
        }),
        0b1100111 => jalr(word),
        0b1100011 => branch(word),
        0b0000011 => load(word),
        0b0100011 => store(word),
        0b0010011 => op_imm(word),
        0b0110011 => op(word),
        0b0001111 => fence(word),
        0b1110011 => system(word),
        _ => None,
    }
}

fn jalr(word: u32) -> Option<Instr>
    ensures { result ≡ jalr_of word }
{
    match funct3(word) {
        0b000 => Some(Instr::Jalr {
            rd: rd(word),
            rs1: rs1(word),
            imm: i_immediate(word),
        }),
        _ => None,
    }
}

fn branch(word: u32) -> Option<Instr>
    ensures { result ≡ branch_of word }
{
    let op = branch_op(funct3(word))?;
    Some(Instr::Branch {
        op,
        rs1: rs1(word),
        rs2: rs2(word),
        imm: b_immediate(word),
    })
}

fn load(word: u32) -> Option<Instr>
    ensures { result ≡ load_of word }
{
    let op = load_op(funct3(word))?;
    Some(Instr::Load {
        op,
        rd: rd(word),
        rs1: rs1(word),
        imm: i_immediate(word),
    })
}

fn store(word: u32) -> Option<Instr>
    ensures { result ≡ store_of word }
{
    let op = store_op(funct3(word))?;
    Some(Instr::Store {
        op,
        rs1: rs1(word),
        rs2: rs2(word),
        imm: s_immediate(word),
    })
}

fn op_imm(word: u32) -> Option<Instr>
    ensures { result ≡ op_imm_of word }
{
    let op = alu_imm_op(funct3(word), funct7(word))?;
    Some(Instr::OpImm {
        op,
        rd: rd(word),
        rs1: rs1(word),
        imm: alu_immediate(op, word),
    })
}

fn op(word: u32) -> Option<Instr>
    ensures { result ≡ op_of word }
{
    let op = alu_op(funct3(word), funct7(word))?;
    Some(Instr::Op {
        op,
        rd: rd(word),
        rs1: rs1(word),
        rs2: rs2(word),
    })
}

/// FENCE.I has another funct3, and is no instruction of RV32I.
fn fence(word: u32) -> Option<Instr>
    ensures { result ≡ fence_of word }
{
    match funct3(word) {
        0b000 => Some(Instr::Fence {
            high: bits(15, 17, word),
            rd: rd(word),
        }),
        _ => None,
    }
}

fn system(word: u32) -> Option<Instr>
    ensures { result ≡ system_of word }
{
    match word {
        0x0000_0073 => Some(Instr::Ecall),
        0x0010_0073 => Some(Instr::Ebreak),
        _ => None,
    }
}

fn rd(word: u32) -> u8
    ensures { result ≡ rd_in word }
{
    bits(7, 5, word) as u8
}

fn rs1(word: u32) -> u8
    ensures { result ≡ rs1_in word }
{
    bits(15, 5, word) as u8
}

fn rs2(word: u32) -> u8
    ensures { result ≡ rs2_in word }
{
    bits(20, 5, word) as u8
}

fn funct3(word: u32) -> u32
    ensures { result ≡ funct3_in word }
{
    bits(12, 3, word)
}

fn funct7(word: u32) -> u32
    ensures { result ≡ funct7_in word }
{
    bits(25, 7, word)
}

fn branch_op(funct3: u32) -> Option<BranchOp>
    ensures { result ≡ branch_op funct3 }
{
    match funct3 {
        0b000 => Some(BranchOp::Beq),
        0b001 => Some(BranchOp::Bne),
        0b100 => Some(BranchOp::Blt),
        0b101 => Some(BranchOp::Bge),
        0b110 => Some(BranchOp::Bltu),
        0b111 => Some(BranchOp::Bgeu),
        _ => None,
    }
}

fn load_op(funct3: u32) -> Option<LoadOp>
    ensures { result ≡ load_op funct3 }
{
    match funct3 {
        0b000 => Some(LoadOp::Lb),
        0b001 => Some(LoadOp::Lh),
        0b010 => Some(LoadOp::Lw),
        0b100 => Some(LoadOp::Lbu),
        0b101 => Some(LoadOp::Lhu),
        _ => None,
    }
}

fn store_op(funct3: u32) -> Option<StoreOp>
    ensures { result ≡ store_op funct3 }
{
    match funct3 {
        0b000 => Some(StoreOp::Sb),
        0b001 => Some(StoreOp::Sh),
        0b010 => Some(StoreOp::Sw),
        _ => None,
    }
}

/// With funct7 0000000.
fn plain_op(funct3: u32) -> Option<AluOp>
    ensures { result ≡ plain_op funct3 }
{
    match funct3 {
        0b000 => Some(AluOp::Add),
        0b001 => Some(AluOp::Sll),
        0b010 => Some(AluOp::Slt),
        0b011 => Some(AluOp::Sltu),
        0b100 => Some(AluOp::Xor),
        0b101 => Some(AluOp::Srl),
        0b110 => Some(AluOp::Or),
        0b111 => Some(AluOp::And),
        _ => None,
    }
}

/// With funct7 0100000.
fn other_op(funct3: u32) -> Option<AluOp>
    ensures { result ≡ other_op funct3 }
{
    match funct3 {
        0b000 => Some(AluOp::Sub),
        0b101 => Some(AluOp::Sra),
        _ => None,
    }
}

fn alu_op(funct3: u32, funct7: u32) -> Option<AluOp>
    ensures { result ≡ alu_op funct3 funct7 }
{
    match funct7 {
        0b0000000 => plain_op(funct3),
        0b0100000 => other_op(funct3),
        _ => None,
    }
}

/// Of the operations with an immediate only the shifts have a funct7.
fn alu_imm_op(funct3: u32, funct7: u32) -> Option<AluOp>
    ensures { result ≡ alu_imm_op funct3 funct7 }
{
    match funct3 {
        0b001 | 0b101 => alu_op(funct3, funct7),
        _ => plain_op(funct3),
    }
}

fn alu_immediate(op: AluOp, word: u32) -> i32
    ensures { result ≡ alu_immediate op word }
{
    match op {
        AluOp::Sll | AluOp::Srl | AluOp::Sra => bits(20, 5, word) as i32,
        _ => i_immediate(word),
    }
}

fn i_immediate(word: u32) -> i32
    ensures { result ≡ i_immediate word }
{
    sign_extend(12, bits(20, 12, word))
}

fn s_immediate(word: u32) -> i32
    ensures { result ≡ s_immediate word }
{
    sign_extend(12, bits(7, 5, word) + (bits(25, 7, word) << 5))
}

fn b_immediate(word: u32) -> i32
    ensures { result ≡ b_immediate word }
{
    sign_extend(
        13,
        (bits(8, 4, word) << 1)
            + (bits(25, 6, word) << 5)
            + (bits(7, 1, word) << 11)
            + (bits(31, 1, word) << 12),
    )
}

fn j_immediate(word: u32) -> i32
    ensures { result ≡ j_immediate word }
{
    sign_extend(
        21,
        (bits(21, 10, word) << 1)
            + (bits(20, 1, word) << 11)
            + (bits(12, 8, word) << 12)
            + (bits(31, 1, word) << 20),
    )
}
