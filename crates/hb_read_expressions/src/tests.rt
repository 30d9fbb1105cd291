use crate::{ExprNode, State};
use hb_base::{Memory, Name, Place};
use hb_read_patterns::PatNode;
use hb_tokens::{Token, TokenKind, Word};
use std::test::Fail;

const A: TokenKind = TokenKind::ConId(Name(100));

const B: TokenKind = TokenKind::ConId(Name(101));

const F: TokenKind = TokenKind::VarId(Name(109));

const X: TokenKind = TokenKind::VarId(Name(110));

const Y: TokenKind = TokenKind::VarId(Name(111));

const Z: TokenKind = TokenKind::VarId(Name(112));

const PLUS: TokenKind = TokenKind::Op(Name(120));

const TIMES: TokenKind = TokenKind::Op(Name(121));

const ONE: TokenKind = TokenKind::Number(1);

const TWO: TokenKind = TokenKind::Number(2);

const DOT: TokenKind = TokenKind::Dot;

const OPEN: TokenKind = TokenKind::Mark(b'(');

const CLOSE: TokenKind = TokenKind::Mark(b')');

const COMMA: TokenKind = TokenKind::Mark(b',');

const SEMI: TokenKind = TokenKind::Mark(b';');

const SQUARE: TokenKind = TokenKind::Mark(b'[');

const END_SQUARE: TokenKind = TokenKind::Mark(b']');

const QUOTE: TokenKind = TokenKind::Mark(b'`');

const BRACE: TokenKind = TokenKind::Mark(b'{');

const END_BRACE: TokenKind = TokenKind::Mark(b'}');

const EQUALS: TokenKind = TokenKind::Word(Word::Equals);

const ARROW: TokenKind = TokenKind::Word(Word::RightArrow);

const TAKE: TokenKind = TokenKind::Word(Word::LeftArrow);

const LAMBDA: TokenKind = TokenKind::Word(Word::Backslash);

const LET: TokenKind = TokenKind::Word(Word::Let);

const IN: TokenKind = TokenKind::Word(Word::In);

const IF: TokenKind = TokenKind::Word(Word::If);

const THEN: TokenKind = TokenKind::Word(Word::Then);

const ELSE: TokenKind = TokenKind::Word(Word::Else);

const CASE: TokenKind = TokenKind::Word(Word::Case);

const OF: TokenKind = TokenKind::Word(Word::Of);

const DO: TokenKind = TokenKind::Word(Word::Do);

const WHERE: TokenKind = TokenKind::Word(Word::Where);

fn at(col: u32) -> Place {
    Place { line: 1, col }
}

/// The variable of this number in this column.
fn var(col: u32, name: u32) -> ExprNode {
    ExprNode::Var(at(col), Name(name))
}

/// Gives the reader the tokens of these kinds, the first in column 1, until one is not taken: the column of that one, or of
/// the end.
fn feed(reader: &mut State, kinds: &[TokenKind]) -> Result<u32, Memory> {
    let mut col: u32 = 1;
    for kind in kinds {
        let taken = reader.take(Token {
            place: at(col),
            kind: *kind,
        })?;
        if !taken {
            return Ok(col);
        }
        col = col.wrapping_add(1);
    }
    Ok(col)
}

/// The reader stops in this column, and is whole there with these nodes.
fn reads(reader: State, kinds: &[TokenKind], col: u32, nodes: &[ExprNode]) -> Result<bool, Memory> {
    let mut reader = reader;
    let stopped = feed(&mut reader, kinds)?;
    let done = reader.is_done();
    match reader.finish()? {
        Some(found) => Ok(stopped == col && done && found.as_slice() == nodes),
        None => Ok(false),
    }
}

/// The reader stops in this column, and is not whole there.
fn breaks(reader: State, kinds: &[TokenKind], col: u32) -> Result<bool, Memory> {
    let mut reader = reader;
    let stopped = feed(&mut reader, kinds)?;
    let done = reader.is_done();
    let nodes = reader.finish()?;
    Ok(stopped == col && !done && nodes.is_none())
}

#[test]
fn single_tokens_are_expressions(rt: HostRuntime) -> Result<(), Fail> {
    let alloc = rt.alloc();
    let rows = [
        (X, var(1, 110)),
        (A, ExprNode::Con(at(1), Name(100))),
        (TokenKind::Number(12), ExprNode::Number(at(1), 12)),
        (TokenKind::Bits(8, 78), ExprNode::Bits(at(1), 8, 78)),
    ];
    for (kind, node) in rows {
        assert!(rt; reads(State::expr(alloc), &[kind], 2, &[node])?);
    }
    Ok(())
}

#[test]
fn brackets_hold_nothing_an_operator_one_or_two(rt: HostRuntime) -> Result<(), Fail> {
    let alloc = rt.alloc();
    let unit = [ExprNode::Unit(at(1))];
    assert!(rt; reads(State::expr(alloc), &[OPEN, CLOSE], 3, &unit)?);
    assert!(rt; reads(State::expr(alloc), &[OPEN, PLUS, CLOSE], 4, &[var(1, 120)])?);
    assert!(rt; reads(State::expr(alloc), &[OPEN, X, CLOSE], 4, &[var(2, 110)])?);
    let pair = [var(2, 110), var(4, 111), ExprNode::Pair(at(1))];
    assert!(rt; reads(State::expr(alloc), &[OPEN, X, COMMA, Y, CLOSE], 6, &pair)?);
    assert!(rt; breaks(State::expr(alloc), &[OPEN, X, COMMA, Y, COMMA], 5)?);
    Ok(())
}

#[test]
fn arguments_are_applied_to_one_by_one(rt: HostRuntime) -> Result<(), Fail> {
    let alloc = rt.alloc();
    let nodes = [
        var(1, 109),
        var(2, 110),
        ExprNode::Apply(at(2)),
        var(3, 111),
        ExprNode::Apply(at(3)),
    ];
    assert!(rt; reads(State::expr(alloc), &[F, X, Y], 4, &nodes)?);
    Ok(())
}

#[test]
fn operators_stand_between_operands(rt: HostRuntime) -> Result<(), Fail> {
    let alloc = rt.alloc();
    // x + y * z
    let run = [
        var(1, 110),
        var(2, 120),
        var(3, 111),
        var(4, 121),
        var(5, 112),
        ExprNode::Run(at(1), 2),
    ];
    assert!(rt; reads(State::expr(alloc), &[X, PLUS, Y, TIMES, Z], 6, &run)?);
    // x `f` y
    let quoted = [
        var(1, 110),
        var(3, 109),
        var(5, 111),
        ExprNode::Run(at(1), 1),
    ];
    assert!(rt; reads(State::expr(alloc), &[X, QUOTE, F, QUOTE, Y], 6, &quoted)?);
    assert!(rt; breaks(State::expr(alloc), &[X, PLUS, CLOSE], 3)?);
    Ok(())
}

#[test]
fn words_begin_their_forms(rt: HostRuntime) -> Result<(), Fail> {
    let alloc = rt.alloc();
    // \ x -> y
    let lambda = [
        ExprNode::Pat(PatNode::Var(at(2), Name(110))),
        var(4, 111),
        ExprNode::Lambda(at(1), 1),
    ];
    assert!(rt; reads(State::expr(alloc), &[LAMBDA, X, ARROW, Y], 5, &lambda)?);
    assert!(rt; breaks(State::expr(alloc), &[LAMBDA, ARROW], 2)?);
    // if x then y else z
    let choice = [var(2, 110), var(4, 111), var(6, 112), ExprNode::If(at(1))];
    assert!(rt; reads(State::expr(alloc), &[IF, X, THEN, Y, ELSE, Z], 7, &choice)?);
    assert!(rt; breaks(State::expr(alloc), &[IF, X, THEN, Y, SEMI], 5)?);
    // let { x = y } in z
    let local = [
        var(5, 111),
        ExprNode::Row(Name(110), at(3), 0, at(5), 0),
        var(8, 112),
        ExprNode::Let(at(1), 1),
    ];
    let kinds = [LET, BRACE, X, EQUALS, Y, END_BRACE, IN, Z];
    assert!(rt; reads(State::expr(alloc), &kinds, 9, &local)?);
    Ok(())
}

#[test]
fn a_case_has_alternatives(rt: HostRuntime) -> Result<(), Fail> {
    let alloc = rt.alloc();
    // case x of { A -> y ; }
    let nodes = [
        var(2, 110),
        ExprNode::Pat(PatNode::Con(at(5), Name(100), 0)),
        var(7, 111),
        ExprNode::Alternative,
        ExprNode::Case(at(1), 1),
    ];
    let kinds = [CASE, X, OF, BRACE, A, ARROW, Y, SEMI, END_BRACE];
    assert!(rt; reads(State::expr(alloc), &kinds, 10, &nodes)?);
    assert!(rt; breaks(State::expr(alloc), &[CASE, X, OF, BRACE, END_BRACE], 5)?);
    Ok(())
}

#[test]
fn square_brackets_build_and_update(rt: HostRuntime) -> Result<(), Fail> {
    let alloc = rt.alloc();
    let one = ExprNode::Number(at(5), 1);
    let field = ExprNode::Field(at(3), Name(110));
    let build = ExprNode::Build(at(1), Name(100), 1);
    // A [x = 1] [y = 2]
    let both = [
        one,
        field,
        build,
        ExprNode::Number(at(10), 2),
        ExprNode::Field(at(8), Name(111)),
        ExprNode::Update(at(1), 1),
    ];
    let kinds = [
        A, SQUARE, X, EQUALS, ONE, END_SQUARE, SQUARE, Y, EQUALS, TWO, END_SQUARE,
    ];
    assert!(rt; reads(State::expr(alloc), &kinds, 12, &both)?);
    // (A) [x = 1]
    let update = [
        ExprNode::Con(at(2), Name(100)),
        ExprNode::Number(at(7), 1),
        ExprNode::Field(at(5), Name(110)),
        ExprNode::Update(at(1), 1),
    ];
    let kinds = [OPEN, A, CLOSE, SQUARE, X, EQUALS, ONE, END_SQUARE];
    assert!(rt; reads(State::expr(alloc), &kinds, 9, &update)?);
    Ok(())
}

#[test]
fn nothing_goes_on_with_an_empty_construction(rt: HostRuntime) -> Result<(), Fail> {
    let alloc = rt.alloc();
    let empty = [ExprNode::Build(at(1), Name(100), 0)];
    assert!(rt;
        reads(
            State::expr(alloc),
            &[A, SQUARE, END_SQUARE, DOT, X],
            4,
            &empty
        )?
    );
    assert!(rt; breaks(State::expr(alloc), &[X, SQUARE, END_SQUARE], 3)?);
    let select = [var(1, 110), ExprNode::Select(at(1), Name(111))];
    assert!(rt; reads(State::expr(alloc), &[X, DOT, Y], 4, &select)?);
    Ok(())
}

#[test]
fn the_last_statement_is_an_expression(rt: HostRuntime) -> Result<(), Fail> {
    let alloc = rt.alloc();
    let one = [var(3, 110), ExprNode::DoStmt, ExprNode::Do(at(1), 1)];
    assert!(rt; reads(State::expr(alloc), &[DO, BRACE, X, END_BRACE], 5, &one)?);
    // an empty slot comes after it
    let kinds = [DO, BRACE, X, SEMI, SEMI, END_BRACE];
    assert!(rt; reads(State::expr(alloc), &kinds, 7, &one)?);
    let kinds = [DO, BRACE, X, TAKE, Y, SEMI, END_BRACE];
    assert!(rt; breaks(State::expr(alloc), &kinds, 7)?);
    assert!(rt; breaks(State::expr(alloc), &[DO, BRACE, END_BRACE], 3)?);
    assert!(rt; breaks(State::expr(alloc), &[DO, BRACE, SEMI, END_BRACE], 4)?);
    // do { let { x = y } ; }
    let kinds = [
        DO, BRACE, LET, BRACE, X, EQUALS, Y, END_BRACE, SEMI, END_BRACE,
    ];
    assert!(rt; breaks(State::expr(alloc), &kinds, 10)?);
    Ok(())
}

#[test]
fn a_statement_begins_as_a_pattern_or_an_expression(rt: HostRuntime) -> Result<(), Fail> {
    let alloc = rt.alloc();
    // do { A x <- y ; z }
    let taken = [
        ExprNode::Pat(PatNode::Var(at(4), Name(110))),
        ExprNode::Pat(PatNode::Con(at(3), Name(100), 1)),
        var(6, 111),
        ExprNode::TakeStmt,
        var(8, 112),
        ExprNode::DoStmt,
        ExprNode::Do(at(1), 2),
    ];
    let kinds = [DO, BRACE, A, X, TAKE, Y, SEMI, Z, END_BRACE];
    assert!(rt; reads(State::expr(alloc), &kinds, 10, &taken)?);
    // do { A [x] <- y ; z }
    let fields = [
        ExprNode::Pat(PatNode::Var(at(5), Name(110))),
        ExprNode::Pat(PatNode::Field(at(5), Name(110))),
        ExprNode::Pat(PatNode::Fields(at(3), Name(100), 1)),
        var(8, 111),
        ExprNode::TakeStmt,
        var(10, 112),
        ExprNode::DoStmt,
        ExprNode::Do(at(1), 2),
    ];
    let kinds = [
        DO, BRACE, A, SQUARE, X, END_SQUARE, TAKE, Y, SEMI, Z, END_BRACE,
    ];
    assert!(rt; reads(State::expr(alloc), &kinds, 12, &fields)?);
    Ok(())
}

#[test]
fn a_statement_breaks_where_neither_goes_on(rt: HostRuntime) -> Result<(), Fail> {
    let alloc = rt.alloc();
    // neither a pattern nor an expression begins
    assert!(rt; breaks(State::expr(alloc), &[DO, BRACE, PLUS], 3)?);
    assert!(rt; breaks(State::expr(alloc), &[DO, BRACE, TAKE], 3)?);
    // an expression alone has no arrow
    assert!(rt; breaks(State::expr(alloc), &[DO, BRACE, F, X, TAKE], 5)?);
    // a pattern alone takes no arguments after its fields
    let kinds = [DO, BRACE, A, SQUARE, X, END_SQUARE, B, TAKE, Y];
    assert!(rt; breaks(State::expr(alloc), &kinds, 7)?);
    // a pattern alone has no semicolon
    let kinds = [DO, BRACE, A, SQUARE, X, END_SQUARE, SEMI];
    assert!(rt; breaks(State::expr(alloc), &kinds, 7)?);
    // both end before this
    assert!(rt; breaks(State::expr(alloc), &[DO, BRACE, X, CLOSE], 4)?);
    Ok(())
}

#[test]
fn equations_have_a_name_or_an_operator(rt: HostRuntime) -> Result<(), Fail> {
    let alloc = rt.alloc();
    // f x = y
    let named = [
        ExprNode::Pat(PatNode::Var(at(2), Name(110))),
        var(4, 111),
        ExprNode::Row(Name(109), at(1), 1, at(4), 0),
    ];
    assert!(rt; reads(State::equation(alloc), &[F, X, EQUALS, Y], 5, &named)?);
    // x + y = z
    let infix = [
        ExprNode::Pat(PatNode::Var(at(1), Name(110))),
        ExprNode::Pat(PatNode::Var(at(3), Name(111))),
        var(5, 112),
        ExprNode::Row(Name(120), at(1), 2, at(5), 0),
    ];
    assert!(rt; reads(State::equation(alloc), &[X, PLUS, Y, EQUALS, Z], 6, &infix)?);
    // (+) = x
    let bracketed = [var(5, 110), ExprNode::Row(Name(120), at(1), 0, at(5), 0)];
    assert!(rt;
        reads(
            State::equation(alloc),
            &[OPEN, PLUS, CLOSE, EQUALS, X],
            6,
            &bracketed
        )?
    );
    Ok(())
}

#[test]
fn blocks_hold_equations_with_local_ones(rt: HostRuntime) -> Result<(), Fail> {
    let alloc = rt.alloc();
    assert!(rt; reads(State::binds(alloc)?, &[BRACE, SEMI, END_BRACE], 4, &[])?);
    // { f = x where { y = z } }
    let nodes = [
        var(4, 110),
        var(9, 112),
        ExprNode::Row(Name(111), at(7), 0, at(9), 0),
        ExprNode::Row(Name(109), at(2), 0, at(4), 1),
    ];
    let kinds = [
        BRACE, F, EQUALS, X, WHERE, BRACE, Y, EQUALS, Z, END_BRACE, END_BRACE,
    ];
    assert!(rt; reads(State::binds(alloc)?, &kinds, 12, &nodes)?);
    Ok(())
}
