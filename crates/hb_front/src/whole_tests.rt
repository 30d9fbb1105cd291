//! Whole sources, sources that are cut, and sources of 1 MiB.

use crate::read_program;
use crate::samples::{PRELUDE, UART};
use crate::tables::repeated;
use crate::trees::{answer, outcome};
use hb_base::{Code, Fault, Names};
use std::alloc::Global;
use std::test::Fail;

/// How many declarations a source has, or the code that refuses it.
fn declarations(alloc: Global, source: &[u8]) -> Result<Result<usize, Code>, Fail> {
    let mut names = Names::new(alloc)?;
    if source.len() > 1_048_576 || names.count() >= 0x8000_0000 {
        return Err(Fail::from("too much"));
    }
    match read_program(alloc, source, &mut names) {
        Ok(program) => Ok(Ok(program.decls.len())),
        Err(Fault::Refused(refusal)) => Ok(Err(refusal.code)),
        Err(Fault::Memory) => Err(Fail::from("out of memory")),
    }
}

#[test]
fn the_echo_and_the_prelude_are_read(rt: HostRuntime) -> Result<(), Fail> {
    let alloc = rt.alloc();
    assert_eq!(rt; declarations(alloc, UART)?, Ok(25));
    assert_eq!(rt; declarations(alloc, PRELUDE)?, Ok(59));
    let echo = answer(alloc, UART, false)?;
    assert!(rt;
        echo.as_bytes().starts_with(
            b"(bitdata Status (Status 6'0 ((idle) Bool) ((ready) Bool))) (struct Ring ((head tail) (@ Stored (@ Ix 64)))"
        )
    );
    assert!(rt;
        echo.as_bytes()
            .ends_with(b"(sig (main) () (@ M Unit)) (= main () (@ forever poll))")
    );
    let prelude = answer(alloc, PRELUDE, false)?;
    assert!(rt;
        prelude
            .as_bytes()
            .starts_with(b"(infixl 9 (@)) (infixl 8 (shl shr))")
    );
    assert!(rt;
        prelude.as_bytes().ends_with(
            b"(= forFrom (f i) (do (@ f i) (case (@ incIx i) (Nothing (@ return Unit)) ((Just j) (@ (@ forFrom f) j)))))"
        )
    );
    Ok(())
}

#[test]
fn an_echo_that_is_cut_is_read_or_refused_by_tokens_layout_or_grammar(
    rt: HostRuntime,
) -> Result<(), Fail> {
    for length in 0..UART.len() {
        let Some(source) = UART.get(..length) else {
            return Err(Fail::from("no such length"));
        };
        match declarations(rt.alloc(), source)? {
            Ok(count) => assert!(rt; count <= 25, "at {length}"),
            Err(code) => {
                let is_named = code == Code::E02 || code == Code::E03 || code == Code::E04;
                assert!(rt; is_named, "{code:?} at {length}");
            }
        }
    }
    Ok(())
}

#[test]
fn a_mebibyte_of_lambdas_is_refused(rt: HostRuntime) -> Result<(), Fail> {
    let alloc = rt.alloc();
    let source = repeated(alloc, 174_761, ["x = ", "y", ""], ["\\x -> ", ""])?;
    assert_eq!(rt; source.len(), 1_048_571);
    assert_eq!(rt;
        outcome(alloc, source.as_str())?.as_str(),
        "E29 1:1194 depth"
    );
    let source = repeated(alloc, 174_762, ["x = ", "", ""], ["\\x -> ", ""])?;
    assert_eq!(rt;
        outcome(alloc, source.as_str())?.as_str(),
        "E04 1:1048577 -"
    );
    Ok(())
}

#[test]
fn a_mebibyte_of_choices_is_refused(rt: HostRuntime) -> Result<(), Fail> {
    let alloc = rt.alloc();
    let source = repeated(alloc, 61_680, ["x = ", "a", ""], ["if ", " then b else c"])?;
    assert_eq!(rt; source.len(), 1_048_565);
    assert_eq!(rt;
        outcome(alloc, source.as_str())?.as_str(),
        "E29 1:602 depth"
    );
    let source = repeated(alloc, 349_523, ["x = ", "", ""], ["if ", ""])?;
    assert_eq!(rt;
        outcome(alloc, source.as_str())?.as_str(),
        "E04 1:1048574 -"
    );
    Ok(())
}

#[test]
fn a_second_source_is_read_over_the_table_of_the_first(rt: HostRuntime) -> Result<(), Fail> {
    let alloc = rt.alloc();
    let mut names = Names::new(alloc)?;
    if names.count() >= 0x7000_0000 {
        return Err(Fail::from("too much"));
    }
    let first = read_program(alloc, b"f = g", &mut names);
    assert!(rt; first.is_ok());
    assert_eq!(rt; names.count(), 73);
    let second = read_program(alloc, b"g = h x )", &mut names);
    assert!(rt; second.is_err());
    assert_eq!(rt; names.count(), 75);
    let third = read_program(alloc, b"h = f x", &mut names);
    assert!(rt; third.is_ok());
    assert_eq!(rt; names.count(), 75);
    Ok(())
}
