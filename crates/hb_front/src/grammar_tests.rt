//! Each line of the grammar of declarations with its least example and a long one.

use crate::tables::wrong_rows;
use std::test::Fail;

#[test]
fn programs_signatures_and_fixities(rt: HostRuntime) -> Result<(), Fail> {
    let rows = [
        ("", ""),
        ("{ }", ""),
        ("{ ; ; }", ""),
        ("{ ; x = 1 ; ; y = 2 ; }", "(= x () 1) (= y () 2)"),
        ("x = 1\n\ny = 2\n", "(= x () 1) (= y () 2)"),
        ("x :: a", "(sig (x) () a)"),
        ("(+) :: a", "(sig (+) () a)"),
        (
            "(+), f, (-) :: (Eq a, Num a) => a -> a",
            "(sig (+ f -) ((Eq a) (Num a)) (-> a a))",
        ),
        ("infixl 6 +", "(infixl 6 (+))"),
        ("infixr 0 $", "(infixr 0 ($))"),
        ("infix 9 ==, `eq`, /=, `ne`", "(infix 9 (== eq /= ne))"),
    ];
    assert_eq!(rt; wrong_rows(rt.alloc(), &rt, false, &rows)?, 0);
    Ok(())
}

#[test]
fn contexts(rt: HostRuntime) -> Result<(), Fail> {
    let rows = [
        ("f :: C a => a", "(sig (f) ((C a)) a)"),
        ("f :: (C a) => a", "(sig (f) ((C a)) a)"),
        ("f :: C a 8 (M b) => a", "(sig (f) ((C a 8 (@ M b))) a)"),
        ("f :: n + 1 = m => a", "(sig (f) ((+= n 1 m)) a)"),
        ("f :: 2 + n = m => a", "(sig (f) ((+= 2 n m)) a)"),
        ("f :: 2 * k = p => a", "(sig (f) ((*= 2 k p)) a)"),
        ("f :: 2 ^ k = p => a", "(sig (f) ((2^= k p)) a)"),
        ("f :: 2 <= n => a", "(sig (f) ((<= 2 n)) a)"),
        ("f :: C <= D => a", "(sig (f) ((<= C D)) a)"),
        (
            "f :: (n + m = p, n * m = p, 2 ^ k = p, n <= 8, C a b) => a",
            "(sig (f) ((+= n m p) (*= n m p) (2^= k p) (<= n 8) (C a b)) a)",
        ),
    ];
    assert_eq!(rt; wrong_rows(rt.alloc(), &rt, false, &rows)?, 0);
    Ok(())
}

#[test]
fn types(rt: HostRuntime) -> Result<(), Fail> {
    let rows = [
        ("x :: T", "(sig (x) () T)"),
        ("x :: 8", "(sig (x) () 8)"),
        ("x :: ()", "(sig (x) () ())"),
        ("x :: ((a))", "(sig (x) () a)"),
        ("x :: (a, b)", "(sig (x) () (, a b))"),
        ("x :: (n + m)", "(sig (x) () (+ n m))"),
        ("x :: M Unit a", "(sig (x) () (@ (@ M Unit) a))"),
        ("x :: (M Unit) a", "(sig (x) () (@ (@ M Unit) a))"),
        ("x :: M (N a)", "(sig (x) () (@ M (@ N a)))"),
        ("x :: a -> b -> c", "(sig (x) () (-> a (-> b c)))"),
        ("x :: (a -> b) -> c", "(sig (x) () (-> (-> a b) c))"),
        (
            "f :: Ref (Array n (Stored (Bit 8))) -> (a, b -> c) -> () -> Bit (n + m k) -> M ()",
            "(sig (f) () (-> (@ Ref (@ (@ Array n) (@ Stored (@ Bit 8)))) (-> (, a (-> b c)) (-> () (-> (@ Bit (+ n (@ m k))) (@ M ()))))))",
        ),
    ];
    assert_eq!(rt; wrong_rows(rt.alloc(), &rt, false, &rows)?, 0);
    Ok(())
}

#[test]
fn equations(rt: HostRuntime) -> Result<(), Fail> {
    let rows = [
        ("f = x", "(= f () x)"),
        ("f = x where { }", "(= f () x)"),
        ("f = x where", "(= f () x)"),
        (
            "f x y = z where { ; g = x; ; h a = a where { i = 1 } }",
            "(= f (x y) z ((= g () x) (= h (a) a ((= i () 1)))))",
        ),
        ("x + y = z", "(= + (x y) z)"),
        ("x +++ y = z", "(= +++ (x y) z)"),
        ("x `f` y = z", "(= f (x y) z)"),
        ("(+) = z", "(= + () z)"),
        ("(+) x y z = w", "(= + (x y z) w)"),
        ("(A x) + y = z", "(= + ((A x) y) z)"),
        ("(x, y) + z = w", "(= + ((, x y) z) w)"),
        ("A [f] + y = z", "(= + ([A (f f)] y) z)"),
        ("A + B = z", "(= + (A B) z)"),
        ("1 + y = z", "(= + (1 y) z)"),
        ("() + _ = z", "(= + (() _) z)"),
        ("_ `f` X4E = z", "(= f (_ 8'78) z)"),
    ];
    assert_eq!(rt; wrong_rows(rt.alloc(), &rt, false, &rows)?, 0);
    Ok(())
}

#[test]
fn types_are_declared(rt: HostRuntime) -> Result<(), Fail> {
    let rows = [
        ("data T = A", "(data T () (A))"),
        (
            "data T a b = A a (M b) | B | C ()",
            "(data T (a b) (A a (@ M b)) (B) (C ()))",
        ),
        ("bitdata T = A []", "(bitdata T (A))"),
        (
            "bitdata T / 8 = A [B0 | f, g :: Bit 3 | B1] | C [] | D [X0 | h :: a -> b]",
            "(bitdata T /8 (A 1'0 ((f g) (@ Bit 3)) 1'1) (C) (D 4'0 ((h) (-> a b))))",
        ),
        ("struct T [Pad 1]", "(struct T (Pad 1))"),
        (
            "struct T/16 [a, b :: Stored Unsigned | Pad 4 | c :: Y -> Z]",
            "(struct T /16 ((a b) (@ Stored Unsigned)) (Pad 4) ((c) (-> Y Z)))",
        ),
    ];
    assert_eq!(rt; wrong_rows(rt.alloc(), &rt, false, &rows)?, 0);
    Ok(())
}

#[test]
fn areas_and_ports(rt: HostRuntime) -> Result<(), Fail> {
    let rows = [
        ("area a :: T", "(area a T)"),
        ("area a <- 0 :: T -> U", "(area a <- 0 (-> T U))"),
        ("area a <- \\x -> x :: T", "(area a <- (\\ (x) x) T)"),
        (
            "area t <- each i -> fromIx i :: Array 4 (Stored Unsigned) aligned 16",
            "(area t <- (each i (@ fromIx i)) (@ (@ Array 4) (@ Stored Unsigned)) aligned 16)",
        ),
        (
            "area r <- fields [h <- 0 | t <- each i -> each j -> fields [a <- f x + 1]] :: R",
            "(area r <- (fields (h 0) (t (each i (each j (fields (a {(@ f x) + 1})))))) R)",
        ),
        ("port p :: In T at X00", "(port p In T 8'0)"),
        (
            "port p :: Out (Bit 8) at X80000008",
            "(port p Out (@ Bit 8) 32'2147483656)",
        ),
    ];
    assert_eq!(rt; wrong_rows(rt.alloc(), &rt, false, &rows)?, 0);
    Ok(())
}

#[test]
fn classes_and_instances(rt: HostRuntime) -> Result<(), Fail> {
    let rows = [
        ("class C a", "(class () C (a))"),
        ("class C a where { }", "(class () C (a))"),
        ("class D a => C a", "(class ((D a)) C (a))"),
        (
            "class (D a, n <= 8) => C a b c | a -> b, a b -> c a where { ; f, (+) :: a; h :: C b => b }",
            "(class ((D a) (<= n 8)) C (a b c) (a -> b) (a b -> c a) (sig (f +) () a) (sig (h) ((C b)) b))",
        ),
        ("instance C a", "(instance C a ())"),
        ("instance C a where { ; }", "(instance C a ())"),
        ("instance C a if D a", "(instance C a ((D a)))"),
        (
            "instance C (Bit n) 8 if Width n, n <= 8 where { f x = x; x == y = z }",
            "(instance C (@ Bit n) 8 ((Width n) (<= n 8)) (= f (x) x) (= == (x y) z))",
        ),
    ];
    assert_eq!(rt; wrong_rows(rt.alloc(), &rt, false, &rows)?, 0);
    Ok(())
}
