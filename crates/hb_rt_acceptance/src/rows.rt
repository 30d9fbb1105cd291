ghost use Rattle.std.specs.Prelude.{◌≡◌, ◌<◌, ◌^◌, All};
ghost use Rattle.hb_asm.specs.declared.instr.AluOp.TheVariants as operation;
ghost use Rattle.hb_asm.specs.declared.instr.Instr.TheVariants as instruction;
ghost use Rattle.hb_asm.specs.InRange.{InRange, IsImmediate};

use hb_asm::{AluOp, Instr, encode};
use hb_base::{List, Memory, Script, Step, Stop};
use hb_image::Image;
use hb_mach::Machine;
use hb_rt::{divide_code, multiply_code};
use std::alloc::Global;
use std::test::Fail;

/// rd gets the sum of rs1 and a number.
fn addi(rd: u8, rs1: u8, imm: i32) -> Instr
    ensures { result ≡ instruction.OpImm operation.Add rd rs1 imm }
{
    Instr::OpImm {
        op: AluOp::Add,
        rd,
        rs1,
        imm,
    }
}

/// A program that sets x10 and x11, each to its high 20 bits and a number that is added, goes through the routine, and
/// halts with what a register then holds.
fn program(
    alloc: Global,
    first: (u32, i32),
    second: (u32, i32),
    routine: &List<Instr>,
    shown: u8,
) -> Result<Vec<u32>, Memory>
    requires first { first.0 < 2 ^ 20 }
    requires first_low { IsImmediate first.1 }
    requires second { second.0 < 2 ^ 20 }
    requires second_low { IsImmediate second.1 }
    requires routine { All InRange routine.now }
    requires shown { shown < 32 }
{
    let mut code = Vec::new(alloc);
    code.push(encode(Instr::Lui {
        rd: 10,
        imm: first.0,
    }))?;
    code.push(encode(addi(10, 10, first.1)))?;
    code.push(encode(Instr::Lui {
        rd: 11,
        imm: second.0,
    }))?;
    code.push(encode(addi(11, 11, second.1)))?;
    for instr in routine.as_slice() {
        code.push(encode(*instr))?;
    }
    code.push(encode(addi(10, shown, 0)))?;
    code.push(encode(addi(17, 0, 1)))?;
    code.push(encode(Instr::Ecall))?;
    Ok(code)
}

/// How a run of this code ends, if it does within 1,000 steps.
fn end_of(alloc: Global, code: Vec<u32>) -> Result<Option<Stop>, Memory> {
    if code.is_empty() || code.len() > 100 {
        return Ok(None);
    }
    let image = Image {
        ports: List::of(Vec::new(alloc)),
        areas: 0,
        stack: 4096,
        code: List::of(code),
    };
    let script = Script {
        lines: List::of(Vec::new(alloc)),
    };
    let mut machine = Machine::load(alloc, image, script)?;
    for _ in 0..1000 {
        if let Step::Ended(stop) = machine.step() {
            return Ok(Some(stop));
        }
    }
    Ok(None)
}

/// 123,456,789, as high 20 bits and a number that is added.
const SMALL: (u32, i32) = (0x075BD, -747);

/// 987,654,321
const LARGE: (u32, i32) = (0x3ADE7, -1871);

#[test]
fn a_run_multiplies(rt: HostRuntime) -> Result<(), Fail> {
    let routine = multiply_code(rt.alloc())?;
    let code = program(rt.alloc(), SMALL, LARGE, &routine, 10)?;
    // 121,932,631,112,635,269 without what is above 32 bits
    assert_eq!(rt; end_of(rt.alloc(), code)?, Some(Stop::Halt(4_227_814_277)));
    Ok(())
}

#[test]
fn a_run_divides(rt: HostRuntime) -> Result<(), Fail> {
    let routine = divide_code(rt.alloc())?;
    let quotient = program(rt.alloc(), LARGE, SMALL, &routine, 10)?;
    assert_eq!(rt; end_of(rt.alloc(), quotient)?, Some(Stop::Halt(8)));
    let remainder = program(rt.alloc(), LARGE, SMALL, &routine, 11)?;
    assert_eq!(rt; end_of(rt.alloc(), remainder)?, Some(Stop::Halt(9)));
    Ok(())
}
