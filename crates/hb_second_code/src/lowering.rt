ghost use Rattle.std.specs.Prelude.{◌≡◌, ◌+◌, ◌≤◌, ◌++◌, List, All, IfOk, OnOk, length};
ghost use Rattle.hb_base.specs.Inputs.{AreInputs};
ghost use Rattle.hb_base.specs.declared.script.ScriptLine.{ScriptLine};
ghost use Rattle.hb_runs.specs.Outcome.{SameRuns};
ghost use Rattle.hb_flat.specs.Meaning.{runs};
ghost use Rattle.hb_flat.specs.Rules.{IsFlat};
ghost use Rattle.hb_second.specs.Meaning.{says};
ghost use Rattle.hb_second_code.specs.Rules.{IsProgram};
ghost use Rattle.hb_second_code.specs.Lowering.{operand_of, alu_op_of, address_of, reads, binds, write_steps, statement_steps, steps_of, flat_of};

use hb_asm::AluOp;
use hb_base::limits::STANDARD_STACK_BYTES;
use hb_base::{List, Memory, Port};
use hb_flat::{Flat, FlatBlock, FlatStep, FlatTail, Operand};
use hb_second::{Argument, Atom, Operator, Source, Statement};
use std::alloc::Global;

fn operand_of(atom: Atom) -> Operand
    ensures { result ≡ operand_of atom }
{
    match atom {
        Atom::Literal(value) => Operand::Number(u32::from(value)),
        Atom::Variable(number) => Operand::Word(number),
    }
}

fn alu_op_of(operator: Operator) -> AluOp
    ensures { result ≡ alu_op_of operator }
{
    match operator {
        Operator::Add => AluOp::Add,
        Operator::Sub => AluOp::Sub,
        Operator::And => AluOp::And,
        Operator::Or => AluOp::Or,
        Operator::Xor => AluOp::Xor,
    }
}

/// Where the port of this number stands.
fn address_of(ports: &[Port], number: u32) -> Operand
    ensures { result ≡ address_of ports.now number }
{
    match ports.get(number as usize) {
        Some(port) => Operand::Number(port.address),
        None => Operand::Number(0),
    }
}

/// How many variables the statement binds.
fn binds(statement: Statement) -> u32
    ensures { result ≡ binds statement }
{
    match statement {
        Statement::Read(_) => 1,
        Statement::Write(_, _) => 0,
    }
}

/// How many variables the statements bind.
fn count_reads(statements: &[Statement]) -> u32
    requires { length statements.now ≤ 1000 }
    ensures count { result ≡ reads statements.now }
    ensures few { result ≤ 1000 }
{
    let mut count = 0;
    for statement in statements {
        count += binds(*statement);
    }
    count
}

/// Puts the steps of a write at the end.
fn push_write(
    steps: &mut List<FlatStep>,
    ports: &[Port],
    scratch: u32,
    port: u32,
    argument: Argument,
) -> Result<(), Memory>
    ensures { OnOk result (steps.new ≡ steps.old ++ write_steps ports.now scratch port argument) }
{
    let address = address_of(ports, port);
    match argument {
        Argument::Atom(atom) => steps.push(FlatStep::Store(address, 1, operand_of(atom)))?,
        Argument::Operation(left, operator, right) => {
            let op = alu_op_of(operator);
            steps.push(FlatStep::Alu(scratch, op, operand_of(left), operand_of(right)))?;
            steps.push(FlatStep::Store(address, 1, Operand::Word(scratch)))?;
        }
    }
    Ok(())
}

/// Puts the steps of a statement at the end.
fn push_statement(
    steps: &mut List<FlatStep>,
    ports: &[Port],
    scratch: u32,
    bound: u32,
    statement: Statement,
) -> Result<(), Memory>
    ensures { OnOk result (steps.new ≡ steps.old ++ statement_steps ports.now scratch bound statement) }
{
    match statement {
        Statement::Read(port) => {
            steps.push(FlatStep::Load(bound, address_of(ports, port), 1))?;
            Ok(())
        }
        Statement::Write(port, argument) => {
            push_write(steps, ports, scratch, port, argument)?;
            Ok(())
        }
    }
}

/// The steps of all statements.
fn steps_of(
    alloc: Global,
    ports: &[Port],
    scratch: u32,
    statements: &[Statement],
) -> Result<List<FlatStep>, Memory>
    requires { length statements.now ≤ 1000 }
    ensures { IfOk result (λ steps. steps ≡ steps_of ports.now scratch 0 statements.now) }
{
    let mut steps = List::of(Vec::new(alloc));
    let mut bound = 0;
    for statement in statements {
        push_statement(&mut steps, ports, scratch, bound, *statement)?;
        bound += binds(*statement);
    }
    Ok(steps)
}

fn flat_of(alloc: Global, source: &Source) -> Result<Flat, Memory>
    requires { IsProgram source.now }
    ensures { IfOk result (λ flat. flat ≡ flat_of source.now) }
{
    let statements = source.statements.as_slice();
    let scratch = count_reads(statements);
    let block = FlatBlock {
        words: scratch + 1,
        steps: steps_of(alloc, source.ports.as_slice(), scratch, statements)?,
        tail: FlatTail::Done,
    };
    let mut blocks = List::of(Vec::new(alloc));
    blocks.push(block)?;
    let mut rooms = List::of(Vec::new(alloc));
    rooms.push(0)?;
    Ok(Flat {
        blocks,
        rooms,
        entry: 0,
        stack: STANDARD_STACK_BYTES,
    })
}

/// The flat program of a source: whatever the inputs are, each shows what the other shows. It has at most two steps for
/// each statement. `Memory` where memory runs out.
pub fn lower(alloc: Global, source: &Source) -> Result<Flat, Memory>
    requires { IsProgram source.now }
    ensures rules { IfOk result (λ flat. IsFlat flat source.now.ports) }
    ensures stack { IfOk result (λ flat. flat.stack ≡ 1048576) }
    ensures few { IfOk result (λ flat. All (λ block. length block.steps ≤ 2000) flat.blocks) }
    ensures runs { IfOk result (λ flat. (lines : List ScriptLine) → AreInputs source.now.ports lines → SameRuns (says source.now lines) (runs flat source.now.ports lines)) }
{
    let flat = flat_of(alloc, source)?;
    Ok(flat)
}
