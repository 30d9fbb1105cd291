//! The examples of docs/LANGUAGE.md and docs/REFUSALS.md, and which of two faults counts.

use crate::tables::{repeated, wrong_rows};
use crate::trees::outcome;
use std::test::Fail;

#[test]
fn examples_of_declarations(rt: HostRuntime) -> Result<(), Fail> {
    let rows = [
        (
            "x +++ y = add x y where add a b = a + b",
            "(= +++ (x y) (@ (@ add x) y) ((= add (a b) {a + b})))",
        ),
        ("infixr 5 #, `join`", "(infixr 5 (# join))"),
        (
            "data Maybe a = Nothing | Just a",
            "(data Maybe (a) (Nothing) (Just a))",
        ),
        (
            "bitdata Status = Status [ B000000 | idle :: Bool | ready :: Bool ]",
            "(bitdata Status (Status 6'0 ((idle) Bool) ((ready) Bool)))",
        ),
        (
            "struct Ring [ head, tail :: Stored (Ix 64) | Pad 8 | bytes :: Array 64 (Stored (Bit 8)) ]",
            "(struct Ring ((head tail) (@ Stored (@ Ix 64))) (Pad 8) ((bytes) (@ (@ Array 64) (@ Stored (@ Bit 8)))))",
        ),
        (
            "area table <- each i -> fromIx i :: Array 4 (Stored Unsigned) aligned 16",
            "(area table <- (each i (@ fromIx i)) (@ (@ Array 4) (@ Stored Unsigned)) aligned 16)",
        ),
        (
            "area ring <- fields [ head <- 0 | tail <- 0 ] :: Ring",
            "(area ring <- (fields (head 0) (tail 0)) Ring)",
        ),
        (
            "port tx :: Out (Bit 8) at X80000008",
            "(port tx Out (@ Bit 8) 32'2147483656)",
        ),
    ];
    assert_eq!(rt; wrong_rows(rt.alloc(), &rt, false, &rows)?, 0);
    Ok(())
}

#[test]
fn examples_of_classes_and_types(rt: HostRuntime) -> Result<(), Fail> {
    let rows = [
        (
            "next :: Index n => Ix n -> Ix n",
            "(sig (next) ((Index n)) (-> (@ Ix n) (@ Ix n)))",
        ),
        (
            "class Eq a => Ord a where { (<) :: a -> a -> Bool }",
            "(class ((Eq a)) Ord (a) (sig (<) () (-> a (-> a Bool))))",
        ),
        (
            "class Index n => Table t n | t -> n where size :: t -> Ix n",
            "(class ((Index n)) Table (t n) (t -> n) (sig (size) () (-> t (@ Ix n))))",
        ),
        (
            "instance Eq (Bit n) if Width n where x == y = eqU (fromBit x) (fromBit y)",
            "(instance Eq (@ Bit n) ((Width n)) (= == (x y) (@ (@ eqU (@ fromBit x)) (@ fromBit y))))",
        ),
        (
            "glue :: Bit n -> Bit m -> Bit (n + m)",
            "(sig (glue) () (-> (@ Bit n) (-> (@ Bit m) (@ Bit (+ n m)))))",
        ),
        (
            "f :: (n + m = p, 2 ^ k = p, n <= 8) => Bit p -> Bit n",
            "(sig (f) ((+= n m p) (2^= k p) (<= n 8)) (-> (@ Bit p) (@ Bit n)))",
        ),
    ];
    assert_eq!(rt; wrong_rows(rt.alloc(), &rt, false, &rows)?, 0);
    Ok(())
}

#[test]
fn examples_of_expressions(rt: HostRuntime) -> Result<(), Fail> {
    let rows = [
        ("f = \\x (a, b) -> x", "(= f () (\\ (x (, a b)) x))"),
        (
            "f = let { x = 1; f y = y + x } in f x",
            "(= f () (let ((= x () 1) (= f (y) {y + x})) (@ f x)))",
        ),
        ("f = if x == 0 then a else b", "(= f () (if {x == 0} a b))"),
        (
            "f = case m of { Nothing -> a; Just y -> f y }",
            "(= f () (case m (Nothing a) ((Just y) (@ f y))))",
        ),
        (
            "f = do { x <- readPort rx; let { y = x + 1 }; writePort tx y }",
            "(= f () (do (<- x (@ readPort rx)) (let ((= y () {x + 1}))) (@ (@ writePort tx) y)))",
        ),
        ("f = ring.tail", "(= f () (. ring tail))"),
        (
            "f = status [ ready = True ]",
            "(= f () (update status (ready True)))",
        ),
        (
            "f = Status [ idle = False | ready = True ]",
            "(= f () [Status (idle False) (ready True)])",
        ),
        ("f = Empty []", "(= f () [Empty])"),
        ("f = (x, y)", "(= f () (, x y))"),
        ("f = ()", "(= f () ())"),
    ];
    assert_eq!(rt; wrong_rows(rt.alloc(), &rt, false, &rows)?, 0);
    Ok(())
}

#[test]
fn examples_of_refusals(rt: HostRuntime) -> Result<(), Fail> {
    let rows = [
        ("-- 20 °C", "E01 1:7 C2"),
        ("main = 12ab", "E02 1:8 literal"),
        ("x = 0b12", "E02 1:5 literal"),
        ("{- to do", "E02 1:1 comment"),
        ("c = 'A'", "E02 1:5 quote"),
        ("main = (1]", "E03 1:10 -"),
        ("in", "E03 1:1 -"),
        ("main = (f", "E03 1:10 -"),
        ("import Other", "E05 1:1 import"),
        ("x = if <- a", "E05 1:8 if <-"),
        ("x = case <- a", "E05 1:10 case <-"),
    ];
    assert_eq!(rt; wrong_rows(rt.alloc(), &rt, false, &rows)?, 0);
    Ok(())
}

#[test]
fn an_earlier_rule_counts_before_an_earlier_place(rt: HostRuntime) -> Result<(), Fail> {
    let rows = [
        ("x = = 'A' °", "E01 1:11 C2"),
        ("x = = ) import 'A'", "E02 1:16 quote"),
        ("x = = ) import", "E05 1:9 import"),
        ("x = = )", "E03 1:7 -"),
        ("x = = (", "E03 1:8 -"),
    ];
    assert_eq!(rt; wrong_rows(rt.alloc(), &rt, false, &rows)?, 0);
    let alloc = rt.alloc();
    let source = repeated(alloc, 250, ["x = = ", "a", ""], ["(", ")"])?;
    assert_eq!(rt;
        outcome(alloc, source.as_str())?.as_str(),
        "E29 1:206 brackets"
    );
    let source = repeated(alloc, 250, ["x = ", "= a", ""], ["\\a -> ", ""])?;
    assert_eq!(rt; outcome(alloc, source.as_str())?.as_str(), "E04 1:1505 -");
    let source = repeated(alloc, 250, ["x = a", "", ""], [" + a", ""])?;
    assert_eq!(rt; outcome(alloc, source.as_str())?.as_str(), "E29 1:5 depth");
    Ok(())
}
