//! Each line of the grammar of expressions, statements and patterns with its least example and a long one.

use crate::tables::wrong_rows;
use std::test::Fail;

#[test]
fn expressions(rt: HostRuntime) -> Result<(), Fail> {
    let rows = [
        ("x = a", "(= x () a)"),
        ("x = a + b * c", "(= x () {a + b * c})"),
        (
            "x = f a `g` b - \\y -> y + 1",
            "(= x () {(@ f a) g b - (\\ (y) {y + 1})})",
        ),
        ("x = \\y -> y", "(= x () (\\ (y) y))"),
        (
            "x = \\y (A y) _ () A [] 1 -> \\z -> f z y",
            "(= x () (\\ (y (A y) _ () [A] 1) (\\ (z) (@ (@ f z) y))))",
        ),
        ("x = let { } in a", "(= x () (let () a))"),
        (
            "x = let { f y = y + 1; ; z = 2 where { w = 3 } } in f z",
            "(= x () (let ((= f (y) {y + 1}) (= z () 2 ((= w () 3)))) (@ f z)))",
        ),
        ("x = if a then b else c", "(= x () (if a b c))"),
        (
            "x = if if a then b else c then \\y -> y else do { d }",
            "(= x () (if (if a b c) (\\ (y) y) (do d)))",
        ),
        ("x = case a of { b -> c }", "(= x () (case a (b c)))"),
        (
            "x = case f x of { ; A y -> y; (B, 1) -> case z of { _ -> w }; ; }",
            "(= x () (case (@ f x) ((A y) y) ((, B 1) (case z (_ w)))))",
        ),
        ("x = do { a }", "(= x () (do a))"),
        (
            "x = do { y <- a; let { z = y }; ; f z; g }",
            "(= x () (do (<- y a) (let ((= z () y))) (@ f z) g))",
        ),
    ];
    assert_eq!(rt; wrong_rows(rt.alloc(), &rt, false, &rows)?, 0);
    Ok(())
}

#[test]
fn atoms_and_applications(rt: HostRuntime) -> Result<(), Fail> {
    let rows = [
        ("x = A", "(= x () A)"),
        ("x = 7", "(= x () 7)"),
        ("x = B0101", "(= x () 4'5)"),
        ("x = ()", "(= x () ())"),
        ("x = (+)", "(= x () +)"),
        ("x = ((a))", "(= x () a)"),
        ("x = (a, \\y -> y)", "(= x () (, a (\\ (y) y)))"),
        ("x = (a + b) * c", "(= x () {{a + b} * c})"),
        ("x = f a b", "(= x () (@ (@ f a) b))"),
        ("x = (f a) b", "(= x () (@ (@ f a) b))"),
        ("x = f (a b)", "(= x () (@ f (@ a b)))"),
        (
            "x = (+) 1 X4E A (f ()) (a, b)",
            "(= x () (@ (@ (@ (@ (@ + 1) 8'78) A) (@ f ())) (, a b)))",
        ),
    ];
    assert_eq!(rt; wrong_rows(rt.alloc(), &rt, false, &rows)?, 0);
    Ok(())
}

#[test]
fn field_brackets_after_a_constructor_construct_and_else_update(
    rt: HostRuntime,
) -> Result<(), Fail> {
    let rows = [
        ("x = A []", "(= x () [A])"),
        ("x = A [y = 1]", "(= x () [A (y 1)])"),
        ("x = A [y = 1] [z = 2]", "(= x () (update [A (y 1)] (z 2)))"),
        ("x = (A) [y = 1]", "(= x () (update A (y 1)))"),
        (
            "x = a [y = 1 | z = f 2]",
            "(= x () (update a (y 1) (z (@ f 2))))",
        ),
        ("x = f A [y = 1]", "(= x () (@ f [A (y 1)]))"),
        ("x = f a [y = 1]", "(= x () (@ f (update a (y 1))))"),
        ("x = A [] b", "(= x () (@ [A] b))"),
        ("x = a.b", "(= x () (. a b))"),
        ("x = A.b", "(= x () (. A b))"),
        ("x = A.B", "(= x () {A . B})"),
        ("x = A [y = 1].z", "(= x () (. [A (y 1)] z))"),
        ("x = (A []).z", "(= x () (. [A] z))"),
        ("x = f a.b c.d", "(= x () (@ (@ f (. a b)) (. c d)))"),
        (
            "x = (f y).a.b [c = 1 | d = 2] [e = 3].g",
            "(= x () (. (update (update (. (. (@ f y) a) b) (c 1) (d 2)) (e 3)) g))",
        ),
        (
            "x = A [y = \\z -> z | w = do { a; b }]",
            "(= x () [A (y (\\ (z) z)) (w (do a b))])",
        ),
    ];
    assert_eq!(rt; wrong_rows(rt.alloc(), &rt, false, &rows)?, 0);
    Ok(())
}

#[test]
fn patterns(rt: HostRuntime) -> Result<(), Fail> {
    let rows = [
        (
            "f a _ 1 X4E A () (b) (a, b) A [] = x",
            "(= f (a _ 1 8'78 A () b (, a b) [A]) x)",
        ),
        ("f (A b) = x", "(= f ((A b)) x)"),
        ("f A b = x", "(= f (A b) x)"),
        (
            "f A [a | b = B c | d = (e, f)] = x",
            "(= f ([A (a a) (b (B c)) (d (, e f))]) x)",
        ),
        (
            "x = case y of { A B (C d) _ -> z; A B [f] -> z; A [] -> z }",
            "(= x () (case y ((A B (C d) _) z) ((A [B (f f)]) z) ([A] z)))",
        ),
        (
            "x = \\(A (B (C, _))) -> y",
            "(= x () (\\ ((A (B (, C _)))) y))",
        ),
    ];
    assert_eq!(rt; wrong_rows(rt.alloc(), &rt, false, &rows)?, 0);
    Ok(())
}

#[test]
fn statements_begin_with_a_pattern_or_an_expression(rt: HostRuntime) -> Result<(), Fail> {
    let rows = [
        ("m = do { x; ; }", "(= m () (do x))"),
        ("m = do { A B <- y; z }", "(= m () (do (<- (A B) y) z))"),
        ("m = do { A B; z }", "(= m () (do (@ A B) z))"),
        (
            "m = do { (x, _) <- y; z }",
            "(= m () (do (<- (, x _) y) z))",
        ),
        ("m = do { (A x) <- y; z }", "(= m () (do (<- (A x) y) z))"),
        ("m = do { (A x) y; z }", "(= m () (do (@ (@ A x) y) z))"),
        ("m = do { 1 <- x; y }", "(= m () (do (<- 1 x) y))"),
        ("m = do { X4E <- x; y }", "(= m () (do (<- 8'78 x) y))"),
        ("m = do { () <- x; y }", "(= m () (do (<- () x) y))"),
        ("m = do { _ <- x; y }", "(= m () (do (<- _ x) y))"),
        (
            "m = do { A [y = 1] <- z; w }",
            "(= m () (do (<- [A (y 1)] z) w))",
        ),
        ("m = do { A [y = 1]; w }", "(= m () (do [A (y 1)] w))"),
        ("m = do { A [] <- z; w }", "(= m () (do (<- [A] z) w))"),
        ("m = do { A []; w }", "(= m () (do [A] w))"),
        (
            "m = do { A [y] <- z; w }",
            "(= m () (do (<- [A (y y)] z) w))",
        ),
        (
            "m = do { let { y = 1 } in y; w }",
            "(= m () (do (let ((= y () 1)) y) w))",
        ),
        (
            "m = do { A B C [d = 1] x; y }",
            "(= m () (do (@ (@ (@ A B) [C (d 1)]) x) y))",
        ),
        (
            "m = do { A B C [d = 1] x <- y; z }",
            "(= m () (do (<- (A B [C (d 1)] x) y) z))",
        ),
        (
            "m = do { A (x, y).z; w }",
            "(= m () (do (@ A (. (, x y) z)) w))",
        ),
        (
            "m = do { x + 1; \\y -> y; z }",
            "(= m () (do {x + 1} (\\ (y) y) z))",
        ),
    ];
    assert_eq!(rt; wrong_rows(rt.alloc(), &rt, false, &rows)?, 0);
    Ok(())
}
