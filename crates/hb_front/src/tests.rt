use crate::laid_tokens;
use crate::samples::{PRELUDE, UART};
use hb_base::{Code, Fault, Names, Refusal};
use hb_tokens::{TokenKind, Tokens, Word};
use std::alloc::Global;
use std::test::Fail;

/// What the source gives, with a fresh table.
fn laid(alloc: Global, source: &[u8]) -> Result<Result<Tokens, Refusal>, Fail> {
    let mut names = Names::new(alloc)?;
    if source.len() > 1_048_576 || names.count() >= 0x8000_0000 {
        return Err(Fail::from("too much"));
    }
    match laid_tokens(alloc, source, &mut names) {
        Ok(tokens) => Ok(Ok(tokens)),
        Err(Fault::Refused(refusal)) => Ok(Err(refusal)),
        Err(Fault::Memory) => Err(Fail::from("out of memory")),
    }
}

/// Whether the source is refused so.
fn is_refused(
    alloc: Global,
    source: &[u8],
    code: Code,
    line: u32,
    col: u32,
    detail: &[u8],
) -> Result<bool, Fail> {
    match laid(alloc, source)? {
        Ok(_) => Ok(false),
        Err(refusal) => Ok(
            refusal.code == code
                && refusal.place.line == line
                && refusal.place.col == col
                && refusal.detail.as_slice() == detail,
        ),
    }
}

/// The laid-out tokens in a line: a brace, bracket, comma or semicolon as it is, a name as `x`, a word as `w`, an
/// operator as `+`, a number as `1`, and the end as `.`.
fn shape(alloc: Global, source: &[u8]) -> Result<Vec<u8>, Fail> {
    let mut text = Vec::new(alloc);
    match laid(alloc, source)? {
        Ok(tokens) => {
            for token in tokens.list.as_slice() {
                text.push(letter(token.kind))?;
            }
        }
        Err(_) => text.push(b'?')?,
    }
    Ok(text)
}

fn letter(kind: TokenKind) -> u8 {
    match kind {
        TokenKind::VarId(_) | TokenKind::ConId(_) => b'x',
        TokenKind::Word(Word::Equals) => b'=',
        TokenKind::Word(_) => b'w',
        TokenKind::Op(_) => b'+',
        TokenKind::Number(_) | TokenKind::Bits(_, _) => b'1',
        TokenKind::Mark(byte) => byte,
        TokenKind::Dot => b'-',
        TokenKind::End => b'.',
    }
}

#[test]
fn a_bracket_closes_only_its_own_kind(rt: HostRuntime) -> Result<(), Fail> {
    assert!(rt; is_refused(rt.alloc(), b"main = (1]", Code::E03, 1, 10, b"-")?);
    Ok(())
}

#[test]
fn an_in_needs_its_let(rt: HostRuntime) -> Result<(), Fail> {
    assert!(rt; is_refused(rt.alloc(), b"in", Code::E03, 1, 1, b"-")?);
    Ok(())
}

#[test]
fn a_word_that_is_left_out_is_refused(rt: HostRuntime) -> Result<(), Fail> {
    assert!(rt; is_refused(rt.alloc(), b"import Other", Code::E05, 1, 1, b"import")?);
    Ok(())
}

#[test]
fn a_literal_goes_before_a_bracket_and_a_word(rt: HostRuntime) -> Result<(), Fail> {
    assert!(rt; is_refused(rt.alloc(), b") import 12ab", Code::E02, 1, 10, b"literal")?);
    assert!(rt; is_refused(rt.alloc(), b") import", Code::E05, 1, 3, b"import")?);
    assert!(rt; is_refused(rt.alloc(), b")", Code::E03, 1, 1, b"-")?);
    Ok(())
}

/// `main :: M Unit`, and on the next line `main = ` with so many `(`, and after them the rest.
fn nested(alloc: Global, depth: usize, rest: &[u8], closing: usize) -> Result<Vec<u8>, Fail> {
    let mut source = Vec::from_slice(alloc, b"main :: M Unit\nmain = ")?;
    for _place in 0..depth {
        source.push(b'(')?;
    }
    source.extend_from_slice(rest)?;
    for _place in 0..closing {
        source.push(b')')?;
    }
    Ok(source)
}

#[test]
fn the_200th_bracket_beside_the_block_of_the_program_is_too_deep(
    rt: HostRuntime,
) -> Result<(), Fail> {
    let source = nested(rt.alloc(), 250, b"x", 250)?;
    assert!(rt;
        is_refused(
            rt.alloc(),
            source.as_slice(),
            Code::E29,
            2,
            207,
            b"brackets"
        )?
    );
    let source = nested(rt.alloc(), 200, b"x", 200)?;
    assert!(rt;
        is_refused(
            rt.alloc(),
            source.as_slice(),
            Code::E29,
            2,
            207,
            b"brackets"
        )?
    );
    let source = nested(rt.alloc(), 199, b"x", 199)?;
    assert!(rt; laid(rt.alloc(), source.as_slice())?.is_ok());
    Ok(())
}

#[test]
fn an_open_bracket_at_the_end_goes_before_too_many(rt: HostRuntime) -> Result<(), Fail> {
    let source = nested(rt.alloc(), 250, b"", 0)?;
    assert!(rt; is_refused(rt.alloc(), source.as_slice(), Code::E03, 2, 258, b"-")?);
    Ok(())
}

/// Whether the source is laid out, and its end is the first of this line.
fn ends_at_line(alloc: Global, source: &[u8], line: u32) -> Result<bool, Fail> {
    let Ok(tokens) = laid(alloc, source)? else {
        return Ok(false);
    };
    match tokens.list.as_slice().last() {
        Some(end) => {
            Ok(end.kind == TokenKind::End && end.place.line == line && end.place.col == 1)
        }
        None => Ok(false),
    }
}

#[test]
fn the_echo_and_the_prelude_are_laid_out(rt: HostRuntime) -> Result<(), Fail> {
    assert!(rt; ends_at_line(rt.alloc(), UART, 56)?);
    assert!(rt; ends_at_line(rt.alloc(), PRELUDE, 92)?);
    Ok(())
}

#[test]
fn an_echo_that_is_cut_gives_tokens_or_a_named_code(rt: HostRuntime) -> Result<(), Fail> {
    for length in 0..UART.len() {
        let Some(source) = UART.get(..length) else {
            return Err(Fail::from("no such length"));
        };
        match laid(rt.alloc(), source)? {
            Ok(tokens) => assert!(rt; tokens.list.len() > 0),
            Err(refusal) => {
                assert!(rt; refusal.code == Code::E02 || refusal.code == Code::E03);
            }
        }
    }
    Ok(())
}

#[test]
fn blocks_come_from_lines(rt: HostRuntime) -> Result<(), Fail> {
    assert_eq!(rt; shape(rt.alloc(), b"")?.as_slice(), b"{}.".as_slice());
    assert_eq!(rt;
        shape(rt.alloc(), b"f = do a\n       b\ng = 1")?.as_slice(),
        b"{x=w{x;x};x=1}.".as_slice()
    );
    assert_eq!(rt;
        shape(rt.alloc(), b"f = let a = 1\n        b = 2\n    in a")?.as_slice(),
        b"{x=w{x=1;x=1}wx}.".as_slice()
    );
    assert_eq!(rt;
        shape(rt.alloc(), b"f = let a = 1 in a")?.as_slice(),
        b"{x=w{x=1}wx}.".as_slice()
    );
    assert_eq!(rt;
        shape(rt.alloc(), b"f = (do a\n        b) c")?.as_slice(),
        b"{x=(w{x;x})x}.".as_slice()
    );
    Ok(())
}
