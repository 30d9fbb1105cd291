ghost use Rattle.std.specs.Prelude.{[], IfOk};
ghost use Rattle.hb_flat.specs.Rules.{IsFlat};

use crate::{assemble, select};
use hb_asm::AluOp;
use hb_base::List;
use hb_flat::{Flat, FlatBlock, FlatStep, FlatTail, Operand};
use std::alloc::{AllocError, Global};
use std::test::Fail;

/// One word gets a number, and another one word what is left of it without 1.
fn one_less(alloc: Global) -> Result<Flat, AllocError>
    ensures { IfOk result (λ flat. IsFlat flat []) }
{
    let steps = [
        FlatStep::Set(0, Operand::Number(0x1234_5FFF)),
        FlatStep::Alu(1, AluOp::Sub, Operand::Word(0), Operand::Number(1)),
    ];
    let steps = Vec::from_slice(alloc, &steps)?;
    let rooms = Vec::from_slice(alloc, &[8])?;
    let mut blocks = Vec::with_capacity(alloc, 1)?;
    let block = FlatBlock {
        words: 2,
        steps: List::of(steps),
        tail: FlatTail::Done,
    };
    blocks.push(block)?;
    Ok(Flat {
        blocks: List::of(blocks),
        rooms: List::of(rooms),
        entry: 0,
        stack: 4_096,
    })
}

/// The words are those that the RISC-V tools give for the text beside them.
#[test]
fn a_difference_has_the_words_of_the_standard_tools(rt: HostRuntime) -> Result<(), Fail> {
    let flat = one_less(rt.alloc())?;
    let asm = select(rt.alloc(), &flat)?;
    let words = assemble(rt.alloc(), &asm)?;
    let expected = [
        // lui x5, 0x12346; addi x5, x5, -1
        0x1234_62B7,
        0xFFF2_8293,
        // lui x7, 0x40000; sw x5, -1028(x7)
        0x4000_03B7,
        0xBE53_AE23,
        // lui x5, 0x40000; lw x5, -1028(x5)
        0x4000_02B7,
        0xBFC2_A283,
        // lui x6, 0; addi x6, x6, 1
        0x0000_0337,
        0x0013_0313,
        // sub x5, x5, x6
        0x4062_82B3,
        // lui x7, 0x40000; sw x5, -1032(x7)
        0x4000_03B7,
        0xBE53_AC23,
        // addi x17, x0, 0; ecall
        0x0000_0893,
        0x0000_0073,
    ];
    assert_eq!(rt; words.as_slice(), expected.as_slice());
    Ok(())
}
