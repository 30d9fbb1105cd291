ghost use Rattle.std.specs.Prelude.{◌≤◌, [], ◌∷◌, IfOk, codes, length};
ghost use Rattle.hb_base.specs.declared.port.Dir.TheVariants.{In, Out};
ghost use Rattle.hb_second_code.specs.Rules.{AreStatements, IsProgram};

use crate::compile;
use hb_base::{Dir, List, Memory, Port, Text};
use hb_image::Image;
use hb_second::{Argument, Atom, Source, Statement};
use std::alloc::Global;
use std::test::Fail;

/// The ports of an echo, and these statements.
#[tactic(auto, using(hb_second_code::proofs::Examples::echo_program))]
fn source(alloc: Global, statements: &[Statement]) -> Result<Source, Fail>
    requires few { length statements.now ≤ 1000 }
    requires fits { AreStatements (record { name = codes "rx"; dir = In; width = 1; address = 0x8000_0000 } ∷ record { name = codes "tx"; dir = Out; width = 1; address = 0x8000_0004 } ∷ []) 0 statements.now }
    ensures { IfOk result (λ source. IsProgram source) }
{
    let mut ports = List::of(Vec::new(alloc));
    ports.push(Port {
        name: Text::of(Vec::from_slice(alloc, b"rx")?),
        dir: Dir::In,
        width: 1,
        address: 0x8000_0000,
    })?;
    ports.push(Port {
        name: Text::of(Vec::from_slice(alloc, b"tx")?),
        dir: Dir::Out,
        width: 1,
        address: 0x8000_0004,
    })?;
    let statements = List::of(Vec::from_slice(alloc, statements)?);
    Ok(Source { ports, statements })
}

/// The image of a source.
fn compiled(alloc: Global, source: &Source) -> Result<Image, Fail>
    requires { IsProgram source.now }
{
    let image = compile(alloc, source).map_err(|_: Memory| "no memory")?;
    Ok(image)
}

/// The words are those that the RISC-V tools give for the text beside them.
#[test]
fn one_write_has_the_words_of_the_standard_tools(rt: HostRuntime) -> Result<(), Fail> {
    let statements = [Statement::Write(1, Argument::Atom(Atom::Literal(0x41)))];
    let source = source(rt.alloc(), &statements)?;
    let image = compiled(rt.alloc(), &source)?;
    let words = [
        // lui x5, 0x80000; addi x5, x5, 4
        0x8000_02B7,
        0x0042_8293,
        // lui x6, 0; addi x6, x6, 65
        0x0000_0337,
        0x0413_0313,
        // sb x6, 0(x5)
        0x0062_8023,
        // addi x17, x0, 0; ecall
        0x0000_0893,
        0x0000_0073,
    ];
    assert_eq!(rt; image.code.as_slice(), words.as_slice());
    Ok(())
}

#[test]
fn an_image_has_the_ports_of_its_source_in_their_order(rt: HostRuntime) -> Result<(), Fail> {
    let statements = [
        Statement::Read(0),
        Statement::Write(1, Argument::Atom(Atom::Variable(0))),
    ];
    let source = source(rt.alloc(), &statements)?;
    let image = compiled(rt.alloc(), &source)?;
    assert_eq!(rt; image.ports.len(), 2);
    let first = image
        .ports
        .as_slice()
        .first()
        .expect(&rt, "there is a port");
    assert_eq!(rt; first.name.as_slice(), b"rx".as_slice());
    assert_eq!(rt; first.dir, Dir::In);
    assert_eq!(rt; first.width, 1);
    assert_eq!(rt; first.address, 0x8000_0000);
    Ok(())
}
