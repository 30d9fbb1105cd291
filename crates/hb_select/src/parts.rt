ghost use Rattle.std.specs.Prelude.{◌≡◌, [], ◌∷◌, ◌++◌, map, OnOk};
ghost use Rattle.hb_asm.specs.declared.instr.Instr.TheVariants.{Lui};
ghost use Rattle.hb_asm.specs.declared.part.AsmPart.TheVariants.{Instr as part};
ghost use Rattle.hb_flat.specs.declared.form.FlatStep.TheVariants.{Set, Alu, Load, Store};
ghost use Rattle.hb_select.specs.Code.{upper_part, load_of, operand_code, put_code, step_code, store_of, tail_code};

use crate::splitting::{address_of, lower_part, upper_part};
use hb_asm::{AluOp, AsmPart, Instr, LoadOp, StoreOp};
use hb_base::{List, Memory};
use hb_flat::{FlatStep, FlatTail, Operand};

/// The register of a first operand and of what is computed (t0).
const FIRST: u8 = 5;

/// The register of a second operand (t1).
const SECOND: u8 = 6;

/// The register of the address of a word that is set (t2).
const ADDRESS: u8 = 7;

/// The register that says which end an environment call is (a7).
const CALL: u8 = 17;

/// Puts one instruction at the end.
fn push(parts: &mut List<AsmPart>, instr: Instr) -> Result<(), Memory>
    ensures { OnOk result (parts.new ≡ parts.old ++ part instr ∷ []) }
{
    parts.push(AsmPart::Instr(instr))?;
    Ok(())
}

/// Sets a register to the upper part of a number.
fn upper(register: u8, number: u32) -> Instr
    ensures { result ≡ Lui register (upper_part number) }
{
    Instr::Lui {
        rd: register,
        imm: upper_part(number),
    }
}

/// Puts the code that leaves an operand in a register.
fn push_operand(parts: &mut List<AsmPart>, register: u8, operand: Operand) -> Result<(), Memory>
    ensures { OnOk result (parts.new ≡ parts.old ++ map part (operand_code register operand)) }
{
    match operand {
        Operand::Number(number) => {
            push(parts, upper(register, number))?;
            push(
                parts,
                Instr::OpImm {
                    op: AluOp::Add,
                    rd: register,
                    rs1: register,
                    imm: lower_part(number),
                },
            )?;
            Ok(())
        }
        Operand::Word(word) => {
            let address = address_of(word);
            push(parts, upper(register, address))?;
            push(
                parts,
                Instr::Load {
                    op: LoadOp::Lw,
                    rd: register,
                    rs1: register,
                    imm: lower_part(address),
                },
            )?;
            Ok(())
        }
    }
}

/// Puts the code that sets a word of the frame to what was computed.
fn push_put(parts: &mut List<AsmPart>, word: u32) -> Result<(), Memory>
    ensures { OnOk result (parts.new ≡ parts.old ++ map part (put_code word)) }
{
    let address = address_of(word);
    push(
        parts,
        Instr::Lui {
            rd: ADDRESS,
            imm: upper_part(address),
        },
    )?;
    push(
        parts,
        Instr::Store {
            op: StoreOp::Sw,
            rs1: ADDRESS,
            rs2: FIRST,
            imm: lower_part(address),
        },
    )?;
    Ok(())
}

/// The load of so many bytes that fills with zeros.
fn load_of(width: u8) -> LoadOp
    ensures { result ≡ load_of width }
{
    if width == 1 {
        LoadOp::Lbu
    } else if width == 2 {
        LoadOp::Lhu
    } else {
        LoadOp::Lw
    }
}

/// The store of so many bytes.
fn store_of(width: u8) -> StoreOp
    ensures { result ≡ store_of width }
{
    if width == 1 {
        StoreOp::Sb
    } else if width == 2 {
        StoreOp::Sh
    } else {
        StoreOp::Sw
    }
}

/// Puts the code of an operation on two operands.
fn push_alu(
    parts: &mut List<AsmPart>,
    word: u32,
    op: AluOp,
    a: Operand,
    b: Operand,
) -> Result<(), Memory>
    ensures { OnOk result (parts.new ≡ parts.old ++ map part (step_code (Alu word op a b))) }
{
    push_operand(parts, FIRST, a)?;
    push_operand(parts, SECOND, b)?;
    push(
        parts,
        Instr::Op {
            op,
            rd: FIRST,
            rs1: FIRST,
            rs2: SECOND,
        },
    )?;
    push_put(parts, word)?;
    Ok(())
}

/// Puts the code of a load.
fn push_load(
    parts: &mut List<AsmPart>,
    word: u32,
    address: Operand,
    width: u8,
) -> Result<(), Memory>
    ensures { OnOk result (parts.new ≡ parts.old ++ map part (step_code (Load word address width))) }
{
    push_operand(parts, FIRST, address)?;
    push(
        parts,
        Instr::Load {
            op: load_of(width),
            rd: FIRST,
            rs1: FIRST,
            imm: 0,
        },
    )?;
    push_put(parts, word)?;
    Ok(())
}

/// Puts the code of a store.
fn push_store(
    parts: &mut List<AsmPart>,
    address: Operand,
    width: u8,
    a: Operand,
) -> Result<(), Memory>
    ensures { OnOk result (parts.new ≡ parts.old ++ map part (step_code (Store address width a))) }
{
    push_operand(parts, FIRST, address)?;
    push_operand(parts, SECOND, a)?;
    push(
        parts,
        Instr::Store {
            op: store_of(width),
            rs1: FIRST,
            rs2: SECOND,
            imm: 0,
        },
    )?;
    Ok(())
}

/// Puts the code that sets a word to an operand.
fn push_set(parts: &mut List<AsmPart>, word: u32, a: Operand) -> Result<(), Memory>
    ensures { OnOk result (parts.new ≡ parts.old ++ map part (step_code (Set word a))) }
{
    push_operand(parts, FIRST, a)?;
    push_put(parts, word)?;
    Ok(())
}

/// Puts the code of a step.
pub fn push_step(parts: &mut List<AsmPart>, step: FlatStep) -> Result<(), Memory>
    ensures { OnOk result (parts.new ≡ parts.old ++ map part (step_code step)) }
{
    match step {
        FlatStep::Set(word, a) => push_set(parts, word, a),
        FlatStep::Alu(word, op, a, b) => push_alu(parts, word, op, a, b),
        FlatStep::Load(word, address, width) => push_load(parts, word, address, width),
        FlatStep::Store(address, width, a) => push_store(parts, address, width, a),
    }
}

/// Puts the code of a tail.
pub fn push_tail(parts: &mut List<AsmPart>, tail: FlatTail) -> Result<(), Memory>
    ensures { OnOk result (parts.new ≡ parts.old ++ map part (tail_code tail)) }
{
    match tail {
        FlatTail::Done => {
            push(
                parts,
                Instr::OpImm {
                    op: AluOp::Add,
                    rd: CALL,
                    rs1: 0,
                    imm: 0,
                },
            )?;
            push(parts, Instr::Ecall)?;
            Ok(())
        }
    }
}
