use crate::{PatNode, PatReader};
use hb_base::{Memory, Name, Place, fixed};
use hb_tokens::{Token, TokenKind, Word};
use std::test::Fail;

const A: TokenKind = TokenKind::ConId(Name(100));

const B: TokenKind = TokenKind::ConId(Name(101));

const C: TokenKind = TokenKind::ConId(Name(102));

const X: TokenKind = TokenKind::VarId(Name(110));

const Y: TokenKind = TokenKind::VarId(Name(111));

const WILD: TokenKind = TokenKind::VarId(fixed::WILDCARD);

const OPEN: TokenKind = TokenKind::Mark(b'(');

const CLOSE: TokenKind = TokenKind::Mark(b')');

const COMMA: TokenKind = TokenKind::Mark(b',');

const SQUARE: TokenKind = TokenKind::Mark(b'[');

const END_SQUARE: TokenKind = TokenKind::Mark(b']');

const BAR: TokenKind = TokenKind::Word(Word::Bar);

const EQUALS: TokenKind = TokenKind::Word(Word::Equals);

fn at(col: u32) -> Place {
    Place { line: 1, col }
}

/// Gives the reader the tokens of these kinds, the first in column 1, until one is not taken: the column of that one, or of
/// the end.
fn feed(reader: &mut PatReader, kinds: &[TokenKind]) -> Result<u32, Memory> {
    let mut col: u32 = 1;
    for kind in kinds {
        let taken = reader.take(&Token {
            place: at(col),
            kind: *kind,
        })?;
        if !taken {
            return Ok(col);
        }
        col = col.wrapping_add(1);
    }
    Ok(col)
}

/// The reader stops in this column, and is whole there with these nodes.
fn reads(
    reader: PatReader,
    kinds: &[TokenKind],
    col: u32,
    nodes: &[PatNode],
) -> Result<bool, Memory> {
    let mut reader = reader;
    let stopped = feed(&mut reader, kinds)?;
    let done = reader.is_done();
    match reader.finish()? {
        Some(found) => Ok(stopped == col && done && found.as_slice() == nodes),
        None => Ok(false),
    }
}

/// The reader stops in this column, and is not whole there.
fn breaks(reader: PatReader, kinds: &[TokenKind], col: u32) -> Result<bool, Memory> {
    let mut reader = reader;
    let stopped = feed(&mut reader, kinds)?;
    let done = reader.is_done();
    let nodes = reader.finish()?;
    Ok(stopped == col && !done && nodes.is_none())
}

#[test]
fn single_tokens_are_patterns(rt: HostRuntime) -> Result<(), Fail> {
    let alloc = rt.alloc();
    let rows = [
        (X, PatNode::Var(at(1), Name(110))),
        (WILD, PatNode::Any(at(1))),
        (TokenKind::Number(12), PatNode::Number(at(1), 12)),
        (TokenKind::Bits(8, 78), PatNode::Bits(at(1), 8, 78)),
        (A, PatNode::Con(at(1), Name(100), 0)),
    ];
    for (kind, node) in rows {
        assert!(rt; reads(PatReader::pat(alloc), &[kind], 2, &[node])?);
        assert!(rt; reads(PatReader::apat(alloc), &[kind], 2, &[node])?);
        let row = [node, PatNode::Row(1)];
        assert!(rt; reads(PatReader::apats(alloc), &[kind], 2, &row)?);
    }
    Ok(())
}

#[test]
fn constructors_take_arguments(rt: HostRuntime) -> Result<(), Fail> {
    let alloc = rt.alloc();
    // A (x, _)
    assert!(rt;
        reads(
            PatReader::pat(alloc),
            &[A, OPEN, X, COMMA, WILD, CLOSE],
            7,
            &[
                PatNode::Var(at(3), Name(110)),
                PatNode::Any(at(5)),
                PatNode::Pair(at(2)),
                PatNode::Con(at(1), Name(100), 1),
            ]
        )?
    );
    // (A B C)
    assert!(rt;
        reads(
            PatReader::pat(alloc),
            &[OPEN, A, B, C, CLOSE],
            6,
            &[
                PatNode::Con(at(3), Name(101), 0),
                PatNode::Con(at(4), Name(102), 0),
                PatNode::Con(at(2), Name(100), 2),
            ]
        )?
    );
    // A (B x) y
    assert!(rt;
        reads(
            PatReader::pat(alloc),
            &[A, OPEN, B, X, CLOSE, Y],
            7,
            &[
                PatNode::Var(at(4), Name(110)),
                PatNode::Con(at(3), Name(101), 1),
                PatNode::Var(at(6), Name(111)),
                PatNode::Con(at(1), Name(100), 2),
            ]
        )?
    );
    Ok(())
}

#[test]
fn brackets_stand_round_a_pattern_or_nothing(rt: HostRuntime) -> Result<(), Fail> {
    let alloc = rt.alloc();
    // ((x))
    let var = PatNode::Var(at(3), Name(110));
    assert!(rt;
        reads(
            PatReader::pat(alloc),
            &[OPEN, OPEN, X, CLOSE, CLOSE],
            6,
            &[var]
        )?
    );
    // ()
    assert!(rt;
        reads(
            PatReader::pat(alloc),
            &[OPEN, CLOSE],
            3,
            &[PatNode::Unit(at(1))]
        )?
    );
    // (x y), (x, y, x), (,
    assert!(rt; breaks(PatReader::pat(alloc), &[OPEN, X, Y, CLOSE], 3)?);
    assert!(rt; breaks(PatReader::pat(alloc), &[OPEN, X, COMMA, Y, COMMA], 5)?);
    assert!(rt; breaks(PatReader::pat(alloc), &[OPEN, COMMA], 2)?);
    Ok(())
}

#[test]
fn fields_stand_in_square_brackets(rt: HostRuntime) -> Result<(), Fail> {
    let alloc = rt.alloc();
    // A [x = B | y]
    assert!(rt;
        reads(
            PatReader::pat(alloc),
            &[A, SQUARE, X, EQUALS, B, BAR, Y, END_SQUARE],
            9,
            &[
                PatNode::Con(at(5), Name(101), 0),
                PatNode::Field(at(3), Name(110)),
                PatNode::Var(at(7), Name(111)),
                PatNode::Field(at(7), Name(111)),
                PatNode::Fields(at(1), Name(100), 2),
            ]
        )?
    );
    // A []
    let none = PatNode::Fields(at(1), Name(100), 0);
    assert!(rt; reads(PatReader::pat(alloc), &[A, SQUARE, END_SQUARE], 4, &[none])?);
    // A [_, A [x |], A [x =]
    assert!(rt; breaks(PatReader::pat(alloc), &[A, SQUARE, WILD], 3)?);
    assert!(rt; breaks(PatReader::pat(alloc), &[A, SQUARE, X, BAR, END_SQUARE], 5)?);
    assert!(rt;
        breaks(
            PatReader::pat(alloc),
            &[A, SQUARE, X, EQUALS, END_SQUARE],
            5
        )?
    );
    Ok(())
}

#[test]
fn a_constructor_with_fields_takes_no_arguments(rt: HostRuntime) -> Result<(), Fail> {
    let alloc = rt.alloc();
    // A [x] B
    assert!(rt;
        reads(
            PatReader::pat(alloc),
            &[A, SQUARE, X, END_SQUARE, B],
            5,
            &[
                PatNode::Var(at(3), Name(110)),
                PatNode::Field(at(3), Name(110)),
                PatNode::Fields(at(1), Name(100), 1),
            ]
        )?
    );
    // A x [
    assert!(rt;
        reads(
            PatReader::pat(alloc),
            &[A, X, SQUARE],
            3,
            &[
                PatNode::Var(at(2), Name(110)),
                PatNode::Con(at(1), Name(100), 1),
            ]
        )?
    );
    // A B [x = y]
    assert!(rt;
        reads(
            PatReader::pat(alloc),
            &[A, B, SQUARE, X, EQUALS, Y, END_SQUARE],
            8,
            &[
                PatNode::Var(at(6), Name(111)),
                PatNode::Field(at(4), Name(110)),
                PatNode::Fields(at(2), Name(101), 1),
                PatNode::Con(at(1), Name(100), 1),
            ]
        )?
    );
    Ok(())
}

#[test]
fn a_simple_pattern_is_one_alone(rt: HostRuntime) -> Result<(), Fail> {
    let alloc = rt.alloc();
    // A B
    let con = PatNode::Con(at(1), Name(100), 0);
    assert!(rt; reads(PatReader::apat(alloc), &[A, B], 2, &[con])?);
    // (A B) x
    assert!(rt;
        reads(
            PatReader::apat(alloc),
            &[OPEN, A, B, CLOSE, X],
            5,
            &[
                PatNode::Con(at(3), Name(101), 0),
                PatNode::Con(at(2), Name(100), 1),
            ]
        )?
    );
    assert!(rt; breaks(PatReader::apat(alloc), &[], 1)?);
    assert!(rt; breaks(PatReader::apat(alloc), &[TokenKind::Op(fixed::PLUS)], 1)?);
    Ok(())
}

#[test]
fn many_simple_patterns_stand_in_a_row(rt: HostRuntime) -> Result<(), Fail> {
    let alloc = rt.alloc();
    assert!(rt; reads(PatReader::apats(alloc), &[], 1, &[PatNode::Row(0)])?);
    // x A (B y) =
    assert!(rt;
        reads(
            PatReader::apats(alloc),
            &[X, A, OPEN, B, Y, CLOSE, EQUALS],
            7,
            &[
                PatNode::Var(at(1), Name(110)),
                PatNode::Con(at(2), Name(100), 0),
                PatNode::Var(at(5), Name(111)),
                PatNode::Con(at(4), Name(101), 1),
                PatNode::Row(3),
            ]
        )?
    );
    Ok(())
}

/// So many brackets round a variable.
fn nested(alloc: std::alloc::Global, depth: u32) -> Result<Vec<TokenKind>, Fail> {
    let mut kinds = Vec::new(alloc);
    for _ in 0..depth {
        kinds.push(OPEN)?;
    }
    kinds.push(X)?;
    for _ in 0..depth {
        kinds.push(CLOSE)?;
    }
    Ok(kinds)
}

#[test]
fn deep_nesting_takes_no_stack(rt: HostRuntime) -> Result<(), Fail> {
    let alloc = rt.alloc();
    let kinds = nested(alloc, 100_000)?;
    let var = PatNode::Var(at(100_001), Name(110));
    assert!(rt; reads(PatReader::pat(alloc), &kinds, 200_002, &[var])?);
    Ok(())
}

#[test]
fn a_reader_begins_anew(rt: HostRuntime) -> Result<(), Fail> {
    let mut reader = PatReader::pat(rt.alloc());
    // ( A
    assert_eq!(rt; feed(&mut reader, &[OPEN, A])?, 3);
    // a token that begins no pattern changes nothing
    let comma = Token {
        place: at(3),
        kind: COMMA,
    };
    let con = Token {
        place: at(3),
        kind: B,
    };
    assert!(rt; !reader.begin_apat(&comma)?);
    assert!(rt; reader.take(&comma)?);
    // a simple pattern takes no arguments, another one does
    assert!(rt; reader.begin_apat(&con)?);
    assert!(rt; !reader.take(&con)?);
    assert!(rt; reader.begin_pat(&con)?);
    assert!(rt; reader.take(&con)?);
    reader.restart_pat();
    assert!(rt; reads(reader, &[X], 2, &[PatNode::Var(at(1), Name(110))])?);
    Ok(())
}
