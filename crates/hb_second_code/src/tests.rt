ghost use Rattle.std.specs.Prelude.{◌≤◌, [], ◌∷◌, IfOk, codes, length};
ghost use Rattle.hb_base.specs.declared.port.Dir.TheVariants.{In, Out};
ghost use Rattle.hb_second_code.specs.Rules.{AreStatements, IsProgram};

use crate::lower;
use hb_asm::AluOp;
use hb_base::{Dir, List, Memory, Port, Text};
use hb_flat::{Flat, FlatStep, Operand};
use hb_second::{Argument, Atom, Operator, Source, Statement};
use std::alloc::Global;
use std::test::Fail;

/// Where the ports of the sources stand.
const RX: Operand = Operand::Number(0x8000_0000);

const TX: Operand = Operand::Number(0x8000_0004);

/// The ports of an echo, and these statements.
#[tactic(auto, using(crate::proofs::Examples::echo_program))]
fn source(alloc: Global, statements: &[Statement]) -> Result<Source, Fail>
    requires few { length statements.now ≤ 1000 }
    requires fits { AreStatements (record { name = codes "rx"; dir = In; width = 1; address = 0x8000_0000 } ∷ record { name = codes "tx"; dir = Out; width = 1; address = 0x8000_0004 } ∷ []) 0 statements.now }
    ensures { IfOk result (λ source. IsProgram source) }
{
    let mut ports = List::of(Vec::new(alloc));
    ports.push(Port {
        name: Text::of(Vec::from_slice(alloc, b"rx")?),
        dir: Dir::In,
        width: 1,
        address: 0x8000_0000,
    })?;
    ports.push(Port {
        name: Text::of(Vec::from_slice(alloc, b"tx")?),
        dir: Dir::Out,
        width: 1,
        address: 0x8000_0004,
    })?;
    let statements = List::of(Vec::from_slice(alloc, statements)?);
    Ok(Source { ports, statements })
}

/// The flat program of a source.
fn lowered(alloc: Global, source: &Source) -> Result<Flat, Fail>
    requires { IsProgram source.now }
{
    let flat = lower(alloc, source).map_err(|_: Memory| "no memory")?;
    Ok(flat)
}

#[test]
fn an_echo_of_two_bytes_has_a_step_for_each_statement(rt: HostRuntime) -> Result<(), Fail> {
    let statements = [
        Statement::Read(0),
        Statement::Read(0),
        Statement::Write(1, Argument::Atom(Atom::Variable(0))),
        Statement::Write(1, Argument::Atom(Atom::Variable(1))),
    ];
    let source = source(rt.alloc(), &statements)?;
    let flat = lowered(rt.alloc(), &source)?;
    let block = flat
        .blocks
        .as_slice()
        .first()
        .expect(&rt, "there is a block");
    let steps = [
        FlatStep::Load(0, RX, 1),
        FlatStep::Load(1, RX, 1),
        FlatStep::Store(TX, 1, Operand::Word(0)),
        FlatStep::Store(TX, 1, Operand::Word(1)),
    ];
    assert_eq!(rt; block.steps.as_slice(), steps.as_slice());
    Ok(())
}

#[test]
fn a_last_write_with_an_operator_has_two_steps(rt: HostRuntime) -> Result<(), Fail> {
    let difference = Argument::Operation(Atom::Variable(0), Operator::Sub, Atom::Variable(1));
    let statements = [
        Statement::Read(0),
        Statement::Read(0),
        Statement::Write(1, difference),
    ];
    let source = source(rt.alloc(), &statements)?;
    let flat = lowered(rt.alloc(), &source)?;
    let block = flat
        .blocks
        .as_slice()
        .first()
        .expect(&rt, "there is a block");
    let steps = [
        FlatStep::Load(0, RX, 1),
        FlatStep::Load(1, RX, 1),
        FlatStep::Alu(2, AluOp::Sub, Operand::Word(0), Operand::Word(1)),
        FlatStep::Store(TX, 1, Operand::Word(2)),
    ];
    assert_eq!(rt; block.steps.as_slice(), steps.as_slice());
    Ok(())
}

#[test]
fn the_frame_has_a_word_for_each_variable_and_one_more(rt: HostRuntime) -> Result<(), Fail> {
    let statements = [
        Statement::Read(0),
        Statement::Read(0),
        Statement::Write(1, Argument::Atom(Atom::Literal(0x41))),
    ];
    let source = source(rt.alloc(), &statements)?;
    let flat = lowered(rt.alloc(), &source)?;
    let block = flat
        .blocks
        .as_slice()
        .first()
        .expect(&rt, "there is a block");
    assert_eq!(rt; block.words, 3);
    assert_eq!(rt; flat.stack, 1_048_576);
    Ok(())
}
