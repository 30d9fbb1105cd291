use crate::making::Making;
use crate::reading::{FormError, read_source};
use crate::source::{Argument, Atom, Operator, Source, Statement};
use hb_base::{Dir, Place};
use hb_tree::Expr;
use std::alloc::Global;
use std::test::Fail;

/// The line of the end of each text.
const END: u32 = 2000;

fn at_end() -> Place {
    Place { line: END, col: 1 }
}

/// The source that the tree is read as.
fn found(alloc: Global, making: Making) -> Option<Source> {
    let (program, names) = making.done();
    match read_source(alloc, &program, &names, at_end()) {
        Ok(source) => Some(source),
        Err(_error) => None,
    }
}

/// The line at which the tree is refused.
fn refused(alloc: Global, making: Making) -> Option<u32> {
    let (program, names) = making.done();
    match read_source(alloc, &program, &names, at_end()) {
        Err(FormError::Form(place)) => Some(place.line),
        _ => None,
    }
}

/// The ports of an echo on lines 1 and 2, the signature on line 3, and the beginning of the equation on line 4.
fn begun(alloc: Global) -> Result<Making, Fail> {
    let mut making = Making::new(alloc)?;
    making.port(b"rx", Dir::In, 0x8000_0000)?;
    making.port(b"tx", Dir::Out, 0x8000_0004)?;
    making.signature()?;
    making.open();
    Ok(making)
}

#[test]
fn an_echo_is_its_source(rt: HostRuntime) -> Result<(), Fail> {
    let mut making = begun(rt.alloc())?;
    making.read(b"x", b"rx")?;
    let x = making.variable(b"x")?;
    making.write(b"tx", x)?;
    making.close()?;
    let found = found(rt.alloc(), making);
    assert!(rt; found.is_some());
    if let Some(source) = found {
        let ports = source.ports.as_slice();
        assert_eq!(rt; ports.len(), 2);
        if let [rx, tx] = ports {
            assert_eq!(rt; rx.name.as_slice(), b"rx".as_slice());
            assert_eq!(rt; rx.dir, Dir::In);
            assert_eq!(rt; rx.width, 1);
            assert_eq!(rt; rx.address, 0x8000_0000);
            assert_eq!(rt; tx.name.as_slice(), b"tx".as_slice());
            assert_eq!(rt; tx.dir, Dir::Out);
        }
        let want = [
            Statement::Read(0),
            Statement::Write(1, Argument::Atom(Atom::Variable(0))),
        ];
        assert_eq!(rt; source.statements.as_slice(), want.as_slice());
    }
    Ok(())
}

#[test]
fn a_difference_keeps_the_order_of_its_operands(rt: HostRuntime) -> Result<(), Fail> {
    let mut making = begun(rt.alloc())?;
    making.read(b"x", b"rx")?;
    let difference = making.difference(b"x", 1)?;
    making.write(b"tx", difference)?;
    making.close()?;
    let found = found(rt.alloc(), making);
    assert!(rt; found.is_some());
    if let Some(source) = found {
        let difference = Argument::Operation(Atom::Variable(0), Operator::Sub, Atom::Literal(1));
        let want = [Statement::Read(0), Statement::Write(1, difference)];
        assert_eq!(rt; source.statements.as_slice(), want.as_slice());
    }
    Ok(())
}

#[test]
fn without_an_out_port_the_signature_is_wrong(rt: HostRuntime) -> Result<(), Fail> {
    let mut making = Making::new(rt.alloc())?;
    making.port(b"rx", Dir::In, 0x8000_0000)?;
    making.signature()?;
    assert_eq!(rt; refused(rt.alloc(), making), Some(2));
    Ok(())
}

#[test]
fn a_port_in_memory_is_wrong(rt: HostRuntime) -> Result<(), Fail> {
    let mut making = Making::new(rt.alloc())?;
    making.port(b"rx", Dir::In, 0x8000_0000)?;
    making.port(b"tx", Dir::Out, 0x7FFF_FFFF)?;
    assert_eq!(rt; refused(rt.alloc(), making), Some(2));
    Ok(())
}

#[test]
fn a_second_port_of_a_name_is_wrong(rt: HostRuntime) -> Result<(), Fail> {
    let mut making = Making::new(rt.alloc())?;
    making.port(b"tx", Dir::Out, 0x8000_0000)?;
    making.port(b"tx", Dir::Out, 0x8000_0001)?;
    assert_eq!(rt; refused(rt.alloc(), making), Some(2));
    Ok(())
}

#[test]
fn an_equation_without_its_signature_is_wrong(rt: HostRuntime) -> Result<(), Fail> {
    let mut making = Making::new(rt.alloc())?;
    making.port(b"tx", Dir::Out, 0x8000_0000)?;
    making.open();
    making.close()?;
    assert_eq!(rt; refused(rt.alloc(), making), Some(2));
    Ok(())
}

#[test]
fn a_statement_that_names_no_variable_is_wrong(rt: HostRuntime) -> Result<(), Fail> {
    let mut making = begun(rt.alloc())?;
    making.read(b"x", b"rx")?;
    let y = making.variable(b"y")?;
    making.write(b"tx", y)?;
    making.close()?;
    assert_eq!(rt; refused(rt.alloc(), making), Some(6));
    Ok(())
}

#[test]
fn a_literal_of_nine_bits_is_wrong(rt: HostRuntime) -> Result<(), Fail> {
    let mut making = begun(rt.alloc())?;
    let wide = Expr::bits(making.place(), 9, 1);
    making.write(b"tx", wide)?;
    making.close()?;
    assert_eq!(rt; refused(rt.alloc(), making), Some(5));
    Ok(())
}

#[test]
fn after_a_last_read_a_write_is_missing_at_the_end(rt: HostRuntime) -> Result<(), Fail> {
    let mut making = begun(rt.alloc())?;
    making.read(b"x", b"rx")?;
    making.close()?;
    assert_eq!(rt; refused(rt.alloc(), making), Some(END));
    Ok(())
}

#[test]
fn a_port_after_the_equation_is_wrong(rt: HostRuntime) -> Result<(), Fail> {
    let mut making = begun(rt.alloc())?;
    let zero = Expr::bits(making.place(), 8, 0);
    making.write(b"tx", zero)?;
    making.close()?;
    making.port(b"ty", Dir::Out, 0x8000_0008)?;
    assert_eq!(rt; refused(rt.alloc(), making), Some(6));
    Ok(())
}

#[test]
fn the_last_of_a_thousand_and_one_statements_is_wrong(rt: HostRuntime) -> Result<(), Fail> {
    let mut making = begun(rt.alloc())?;
    for _ in 0..1001u32 {
        let zero = Expr::bits(making.place(), 8, 0);
        making.write(b"tx", zero)?;
    }
    making.close()?;
    assert_eq!(rt; refused(rt.alloc(), making), Some(1005));
    Ok(())
}
