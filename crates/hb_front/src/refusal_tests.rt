//! Sources that the grammar refuses, and where.

use crate::tables::wrong_rows;
use std::test::Fail;

#[test]
fn a_do_has_a_statement_and_its_last_one_is_an_expression(rt: HostRuntime) -> Result<(), Fail> {
    let rows = [
        ("{ main :: M Unit; main = do { } }", "E04 1:31 -"),
        ("main = do {}", "E04 1:12 -"),
        ("main = do", "E04 1:10 -"),
        ("main = do\nx = 1", "E04 2:1 -"),
        ("main = do { ; }", "E04 1:15 -"),
        ("main = do { x <- y; }", "E04 1:21 -"),
        ("main = do { x <- y }", "E04 1:20 -"),
        ("main = do { x; y <- z; }", "E04 1:24 -"),
        ("main = do { let { y = 1 } }", "E04 1:27 -"),
        ("main = do { let { y = 1 }; }", "E04 1:28 -"),
        ("f = do\n  x <- y\ng = 1", "E04 3:1 -"),
        ("x = do { a } b", "E04 1:14 -"),
        ("x = do { a } + b", "E04 1:14 -"),
        ("x = do { a }.b", "E04 1:13 -"),
    ];
    assert_eq!(rt; wrong_rows(rt.alloc(), &rt, false, &rows)?, 0);
    Ok(())
}

#[test]
fn fields_are_left_out_in_a_construction_alone(rt: HostRuntime) -> Result<(), Fail> {
    let rows = [
        ("struct E [ ]", "E04 1:12 -"),
        ("x = A [].y", "E04 1:9 -"),
        ("x = A [] [y = 1]", "E04 1:10 -"),
        ("x = a []", "E04 1:8 -"),
        ("x = (A) []", "E04 1:10 -"),
        ("x = A [y = 1] []", "E04 1:16 -"),
        ("x = A [y]", "E04 1:9 -"),
        ("x = A [y = 1 |]", "E04 1:15 -"),
        ("x = A [Y = 1]", "E04 1:8 -"),
        ("x = A [_ = 1]", "E04 1:8 -"),
        ("f A [] [] = x", "E04 1:8 -"),
        ("f a [b] = x", "E04 1:5 -"),
        ("f A [b = c d] = x", "E04 1:12 -"),
    ];
    assert_eq!(rt; wrong_rows(rt.alloc(), &rt, false, &rows)?, 0);
    Ok(())
}

#[test]
fn a_pattern_for_a_statement_is_refused_where_it_is_none(rt: HostRuntime) -> Result<(), Fail> {
    let rows = [
        ("m = do { A [x] B <- y; z }", "E04 1:16 -"),
        ("m = do { A [x = 1] B <- y; z }", "E04 1:22 -"),
        ("m = do { A [] B <- y; z }", "E04 1:17 -"),
        ("m = do { f A <- y; z }", "E04 1:14 -"),
        ("m = do { (A, B) C <- y; z }", "E04 1:19 -"),
        ("m = do { (f x) <- y; z }", "E04 1:16 -"),
        ("m = do { (x + 1) <- y; z }", "E04 1:18 -"),
        ("m = do { (A x) y <- z; w }", "E04 1:18 -"),
        ("m = do { A x + y <- z; w }", "E04 1:18 -"),
        ("m = do { (+) <- x; y }", "E04 1:14 -"),
        ("m = do { x.y <- z; w }", "E04 1:14 -"),
        ("m = do { x [y = 1] <- z; w }", "E04 1:20 -"),
        ("m = do { A [y = 1 + 2] <- z; w }", "E04 1:24 -"),
        ("m = do { A B.c <- y; z }", "E04 1:16 -"),
        ("m = do { \\x -> x <- z; w }", "E04 1:18 -"),
        ("m = do { let { y = 1 } in y <- z; w }", "E04 1:29 -"),
    ];
    assert_eq!(rt; wrong_rows(rt.alloc(), &rt, false, &rows)?, 0);
    Ok(())
}

#[test]
fn an_expression_for_a_statement_is_refused_where_it_is_none(rt: HostRuntime) -> Result<(), Fail> {
    let rows = [
        ("m = do { _; z }", "E04 1:11 -"),
        ("m = do { _ + y; z }", "E04 1:12 -"),
        ("m = do { (_, x) y; z }", "E04 1:17 -"),
        ("m = do { A _ + y }", "E04 1:14 -"),
        ("m = do { A (_) [x = 1] }", "E04 1:16 -"),
        ("m = do { A [y = _]; w }", "E04 1:19 -"),
        ("m = do { A [y | z]; w }", "E04 1:19 -"),
        ("m = do { A [y]; w }", "E04 1:15 -"),
        ("m = do { A _ }", "E04 1:14 -"),
        ("m = do { (A _, x).y }", "E04 1:18 -"),
        ("m = do { = }", "E04 1:10 -"),
    ];
    assert_eq!(rt; wrong_rows(rt.alloc(), &rt, false, &rows)?, 0);
    Ok(())
}

#[test]
fn an_if_has_its_else_and_a_case_an_alternative(rt: HostRuntime) -> Result<(), Fail> {
    let rows = [
        ("x = if a then b", "E04 1:16 -"),
        ("x = if a then b; y = c", "E04 1:16 -"),
        ("x = (if a then b)", "E04 1:17 -"),
        ("x = if a else b", "E04 1:10 -"),
        ("x = if then", "E04 1:8 -"),
        ("x = f if a then b else c", "E04 1:7 -"),
        ("x = case a of { }", "E04 1:17 -"),
        ("x = case a of", "E04 1:14 -"),
        ("x = case a of { b -> c d -> e }", "E04 1:26 -"),
        ("x = case a of\n  b -> c\n  d", "E04 3:4 -"),
        ("x = case a of { f b -> c }", "E04 1:19 -"),
        ("x = case a of { A [] b -> c }", "E04 1:22 -"),
        ("x = let y = 1", "E04 1:14 -"),
        ("x = let { (y) = 1 } in y", "E04 1:15 -"),
        ("x = \\ -> y", "E04 1:7 -"),
        ("x = f \\y -> y", "E04 1:7 -"),
    ];
    assert_eq!(rt; wrong_rows(rt.alloc(), &rt, false, &rows)?, 0);
    Ok(())
}

#[test]
fn operands_and_operators_alternate(rt: HostRuntime) -> Result<(), Fail> {
    let rows = [
        ("x = a +", "E04 1:8 -"),
        ("x = + a", "E04 1:5 -"),
        ("x = a + * b", "E04 1:9 -"),
        ("x = (a +)", "E04 1:9 -"),
        ("x = (+ a)", "E04 1:8 -"),
        ("x = (a, b, c)", "E04 1:10 -"),
        ("x = (a,)", "E04 1:8 -"),
        ("x = [a]", "E04 1:5 -"),
        ("x = _", "E04 1:5 -"),
        ("x = f _", "E04 1:7 -"),
        ("x = a `F` b", "E04 1:8 -"),
        ("x = a `f b", "E04 1:10 -"),
        ("x = a `_` b", "E04 1:8 -"),
        ("x = a ` + ` b", "E04 1:9 -"),
        ("x = (`f`) b", "E04 1:6 -"),
    ];
    assert_eq!(rt; wrong_rows(rt.alloc(), &rt, false, &rows)?, 0);
    Ok(())
}

#[test]
fn a_program_is_one_block_of_declarations(rt: HostRuntime) -> Result<(), Fail> {
    let rows = [
        ("x", "E04 1:2 -"),
        ("X", "E04 1:2 -"),
        ("1", "E04 1:2 -"),
        ("=", "E04 1:1 -"),
        ("do x", "E04 1:1 -"),
        ("x = 1 y = 2", "E04 1:9 -"),
        ("{ x = 1 } y", "E04 1:11 -"),
        ("{ x = 1 } ;", "E04 1:11 -"),
        ("{ x = 1 } { }", "E04 1:11 -"),
        ("x =\ny = 1", "E04 2:1 -"),
        ("x = a = b", "E04 1:7 -"),
        ("x where", "E04 1:3 -"),
        ("x = a where { y }", "E04 1:17 -"),
        ("x = a where { y :: T }", "E04 1:17 -"),
        ("x = a where { } where { }", "E04 1:17 -"),
    ];
    assert_eq!(rt; wrong_rows(rt.alloc(), &rt, false, &rows)?, 0);
    Ok(())
}
