//! Declarations that the grammar refuses, and where; most of all where two readings run side by side.

use crate::tables::wrong_rows;
use std::test::Fail;

#[test]
fn a_left_side_is_a_signature_or_an_equation(rt: HostRuntime) -> Result<(), Fail> {
    let rows = [
        ("x `f y", "E04 1:6 -"),
        ("x `A` y = z", "E04 1:4 -"),
        ("x + y + z = w", "E04 1:7 -"),
        ("x + f y = z", "E04 1:7 -"),
        ("f x + y = z", "E04 1:5 -"),
        ("A x + y = z", "E04 1:3 -"),
        ("A = z", "E04 1:3 -"),
        ("(x) = z", "E04 1:5 -"),
        ("(x) :: a", "E04 1:5 -"),
        ("(+) + (-) = z", "E04 1:5 -"),
        ("x + (-) = z", "E04 1:6 -"),
        ("_ = z", "E04 1:3 -"),
        ("x, y = z", "E04 1:6 -"),
        ("x x, y :: a", "E04 1:4 -"),
        ("f x :: a", "E04 1:5 -"),
        ("x, A :: b", "E04 1:4 -"),
        ("x + :: a", "E04 1:5 -"),
        ("x, y z :: a", "E04 1:6 -"),
        ("(x, y) = z", "E04 1:8 -"),
        ("x ::", "E04 1:5 -"),
        ("x :: a ->", "E04 1:10 -"),
        ("x :: a b -> -> c", "E04 1:13 -"),
    ];
    assert_eq!(rt; wrong_rows(rt.alloc(), &rt, false, &rows)?, 0);
    Ok(())
}

#[test]
fn types_that_begin_as_contexts(rt: HostRuntime) -> Result<(), Fail> {
    let rows = [
        ("f :: (C a)", "(sig (f) () (@ C a))"),
        ("f :: (C a, D b)", "(sig (f) () (, (@ C a) (@ D b)))"),
        (
            "f :: (C a, D b) -> c",
            "(sig (f) () (-> (, (@ C a) (@ D b)) c))",
        ),
        ("f :: (C a + b) -> c", "(sig (f) () (-> (+ (@ C a) b) c))"),
        ("f :: (C + b)", "(sig (f) () (+ C b))"),
        ("f :: () -> a", "(sig (f) () (-> () a))"),
        ("f :: (n + m) => a", "E04 1:14 -"),
        ("f :: n + m", "E04 1:11 -"),
        ("f :: (a, b) => c", "E04 1:13 -"),
        ("f :: C a -> b => c", "E04 1:15 -"),
        ("f :: (C a) b => c", "E04 1:14 -"),
        ("f :: ((C a)) => b", "E04 1:14 -"),
        ("f :: () => a", "E04 1:9 -"),
        ("f :: a => b", "E04 1:8 -"),
        ("f :: C => a", "E04 1:8 -"),
        ("f :: C a => D b => c", "E04 1:17 -"),
        ("f :: (C a, D b -> c) => d", "E04 1:22 -"),
    ];
    assert_eq!(rt; wrong_rows(rt.alloc(), &rt, false, &rows)?, 0);
    Ok(())
}

#[test]
fn contexts_that_begin_as_types(rt: HostRuntime) -> Result<(), Fail> {
    let rows = [
        ("f :: (C a, D b) => c", "(sig (f) ((C a) (D b)) c)"),
        ("f :: C (a -> b) => c", "(sig (f) ((C (-> a b))) c)"),
        (
            "f :: (n + m) + k = p => a",
            "(sig (f) ((+= (+ n m) k p)) a)",
        ),
        ("f :: (n + m) <= p => a", "(sig (f) ((<= (+ n m) p)) a)"),
        ("f :: (C + b = c) => d", "(sig (f) ((+= C b c)) d)"),
        ("f :: () <= n => a", "(sig (f) ((<= () n)) a)"),
        ("f :: (a -> b) <= n => c", "(sig (f) ((<= (-> a b) n)) c)"),
        (
            "f :: (a -> b, c) <= n => d",
            "(sig (f) ((<= (, (-> a b) c) n)) d)",
        ),
        (
            "f :: ((n + m) <= p, (C a) * 2 = q) => a",
            "(sig (f) ((<= (+ n m) p) (*= (@ C a) 2 q)) a)",
        ),
        ("f :: (n <= m)", "E04 1:14 -"),
        ("f :: n + m = p", "E04 1:15 -"),
        ("f :: (n + m) = p => a", "E04 1:14 -"),
        ("f :: (C a, D b, E c)", "E04 1:21 -"),
        ("f :: (C a, D b, E c) -> d", "E04 1:22 -"),
        ("f :: (n + m, C a) => b", "E04 1:12 -"),
        ("f :: (n + m = p) -> a", "E04 1:18 -"),
        ("f :: n <= m + k => a", "E04 1:13 -"),
    ];
    assert_eq!(rt; wrong_rows(rt.alloc(), &rt, false, &rows)?, 0);
    Ok(())
}

#[test]
fn facts_have_their_forms(rt: HostRuntime) -> Result<(), Fail> {
    let rows = [
        ("f :: 3 ^ k = p => a", "E04 1:8 -"),
        ("f :: n ^ k = p => a", "E04 1:8 -"),
        ("f :: (2) ^ k = p => a", "E04 1:10 -"),
        ("f :: 2 ^ k <= p => a", "E04 1:12 -"),
        ("f :: n - m = p => a", "E04 1:8 -"),
        ("f :: n + m <= p => a", "E04 1:12 -"),
        ("f :: n + m = p q => a", "E04 1:16 -"),
        ("f :: M a <= n => b", "E04 1:10 -"),
        ("f :: (C a,) => b", "E04 1:11 -"),
        ("f :: C _ => b", "E04 1:8 -"),
    ];
    assert_eq!(rt; wrong_rows(rt.alloc(), &rt, false, &rows)?, 0);
    Ok(())
}

#[test]
fn a_class_has_a_head_or_a_context_and_a_head(rt: HostRuntime) -> Result<(), Fail> {
    let rows = [
        ("class C 8 => D a", "(class ((C 8)) D (a))"),
        ("class C a 8 => D a", "(class ((C a 8)) D (a))"),
        ("class C (M a) => D a", "(class ((C (@ M a))) D (a))"),
        ("class (C a) => D a", "(class ((C a)) D (a))"),
        ("class C + b = c => D a", "(class ((+= C b c)) D (a))"),
        ("class n + m = p => D n", "(class ((+= n m p)) D (n))"),
        ("class 2 ^ n = m => D n", "(class ((2^= n m)) D (n))"),
        ("class C", "E04 1:8 -"),
        ("class a", "E04 1:8 -"),
        ("class C 8", "E04 1:10 -"),
        ("class C a 8 | a -> b", "E04 1:13 -"),
        ("class C (M a) where { }", "E04 1:15 -"),
        ("class (C a)", "E04 1:12 -"),
        ("class (C a) where { }", "E04 1:13 -"),
        ("class C a => D", "E04 1:15 -"),
        ("class C a => D 8", "E04 1:16 -"),
        ("class C a => D a => E a", "E04 1:18 -"),
        ("class C a | a -> b => D a", "E04 1:20 -"),
        ("class C a | a", "E04 1:14 -"),
        ("class C a | -> a", "E04 1:13 -"),
        ("class C a + b = c => D a", "E04 1:11 -"),
        ("class C _", "E04 1:9 -"),
        ("class C a where { x = 1 }", "E04 1:21 -"),
    ];
    assert_eq!(rt; wrong_rows(rt.alloc(), &rt, false, &rows)?, 0);
    Ok(())
}

#[test]
fn an_instance_has_types_and_its_conditions_come_behind(rt: HostRuntime) -> Result<(), Fail> {
    let rows = [
        ("instance C", "E04 1:11 -"),
        ("instance C where { }", "E04 1:12 -"),
        ("instance C a => D a", "E04 1:14 -"),
        ("instance C a if", "E04 1:16 -"),
        ("instance C a if (D a)", "E04 1:22 -"),
        ("instance C a if D a,", "E04 1:21 -"),
        ("instance C a where { f :: a }", "E04 1:24 -"),
        ("instance C a -> b", "E04 1:14 -"),
    ];
    assert_eq!(rt; wrong_rows(rt.alloc(), &rt, false, &rows)?, 0);
    Ok(())
}

#[test]
fn an_initialiser_ends_before_the_type(rt: HostRuntime) -> Result<(), Fail> {
    let rows = [
        (
            "area r <- if a then b else c :: T",
            "(area r <- (if a b c) T)",
        ),
        ("area r <- (a) :: T", "(area r <- a T)"),
        ("area r <- a + b :: T", "(area r <- {a + b} T)"),
        ("area r <- x", "E04 1:12 -"),
        ("area r <- :: T", "E04 1:11 -"),
        ("area r <- each -> x :: T", "E04 1:16 -"),
        ("area r <- each i i -> x :: T", "E04 1:18 -"),
        ("area r <- each i -> :: T", "E04 1:21 -"),
        ("area r <- fields [] :: T", "E04 1:19 -"),
        ("area r <- fields [a = 1] :: T", "E04 1:21 -"),
        ("area r <- fields [a <- 1 |] :: T", "E04 1:27 -"),
        ("area r <- fields x :: T", "E04 1:18 -"),
        ("area r <- (each i -> x) :: T", "E04 1:12 -"),
        ("area r <- x + each i -> x :: T", "E04 1:15 -"),
        ("area r x :: T", "E04 1:8 -"),
        ("area R :: T", "E04 1:6 -"),
        ("area r :: T aligned", "E04 1:20 -"),
        ("area r :: T aligned x", "E04 1:21 -"),
    ];
    assert_eq!(rt; wrong_rows(rt.alloc(), &rt, false, &rows)?, 0);
    Ok(())
}

#[test]
fn other_declarations_are_refused_at_the_first_wrong_token(rt: HostRuntime) -> Result<(), Fail> {
    let rows = [
        ("port p :: Up T at X00", "E04 1:11 -"),
        ("port p :: In T at 8", "E04 1:19 -"),
        ("port p :: In Bit 8 at X00", "E04 1:18 -"),
        ("infixl 10 +", "E04 1:8 -"),
        ("infixl +", "E04 1:8 -"),
        ("infixl 6", "E04 1:9 -"),
        ("infixl 6 f", "E04 1:10 -"),
        ("infixl 6 +, ", "E04 1:13 -"),
        ("infixl 6 + -", "E04 1:12 -"),
        ("data t = A", "E04 1:6 -"),
        ("data T = a", "E04 1:10 -"),
        ("data T A = B", "E04 1:8 -"),
        ("data T = A |", "E04 1:13 -"),
        ("data T = A b -> c", "E04 1:14 -"),
        ("bitdata T = A", "E04 1:14 -"),
        ("bitdata T = A [1]", "E04 1:16 -"),
        ("bitdata T / x = A []", "E04 1:13 -"),
        ("bitdata T * 8 = A []", "E04 1:11 -"),
        ("bitdata T = A [f :: a | ]", "E04 1:25 -"),
        ("bitdata T = A [f, B0]", "E04 1:19 -"),
        ("bitdata T = A [Pad 8]", "E04 1:16 -"),
        ("struct T [Pad]", "E04 1:14 -"),
        ("struct T [Gap 8]", "E04 1:11 -"),
        ("struct T [a]", "E04 1:12 -"),
        ("struct T [B0]", "E04 1:11 -"),
    ];
    assert_eq!(rt; wrong_rows(rt.alloc(), &rt, false, &rows)?, 0);
    Ok(())
}
