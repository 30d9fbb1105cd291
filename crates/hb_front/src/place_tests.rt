//! Where the parts of a tree stand.

use crate::tables::wrong_rows;
use std::test::Fail;

#[test]
fn expressions_stand_at_their_places(rt: HostRuntime) -> Result<(), Fail> {
    let rows = [
        ("x = f a b", "1:(= x () 5|9:(@ 7:(@ 5:f 7:a) 9:b))"),
        ("x = (a)", "1:(= x () 5|6:a)"),
        ("x = (a) + b", "1:(= x () 5|5:{6:a 9:+ 11:b})"),
        ("x = (a).f", "1:(= x () 5|5:(. 6:a f))"),
        ("x = (a) [f = 1]", "1:(= x () 5|5:(update 6:a (10:f 14:1)))"),
        ("x = (f) a", "1:(= x () 5|9:(@ 6:f 9:a))"),
        ("x = f (a)", "1:(= x () 5|8:(@ 5:f 8:a))"),
        ("x = f (a b)", "1:(= x () 5|10:(@ 5:f 10:(@ 8:a 10:b)))"),
        ("x = f a.b", "1:(= x () 5|7:(@ 5:f 7:(. 7:a b)))"),
        ("x = f (a + b)", "1:(= x () 5|8:(@ 5:f 8:{8:a 10:+ 12:b}))"),
        ("x = (+) a", "1:(= x () 5|9:(@ 5:+ 9:a))"),
        ("x = a `g` b", "1:(= x () 5|5:{5:a 8:g 11:b})"),
        ("x = f a + b", "1:(= x () 5|5:{7:(@ 5:f 7:a) 9:+ 11:b})"),
        (
            "x = A [y = 1] [z = 2]",
            "1:(= x () 5|5:(update 5:[A (8:y 12:1)] (16:z 20:2)))",
        ),
        ("x = (a, b)", "1:(= x () 5|5:(, 6:a 9:b))"),
        ("x = ()", "1:(= x () 5|5:())"),
        ("x = a.b.c", "1:(= x () 5|5:(. 5:(. 5:a b) c))"),
    ];
    assert_eq!(rt; wrong_rows(rt.alloc(), &rt, true, &rows)?, 0);
    Ok(())
}

#[test]
fn open_expressions_stand_at_their_words(rt: HostRuntime) -> Result<(), Fail> {
    let rows = [
        ("x = \\y -> y", "1:(= x () 5|5:(\\ (6:y) 11:y))"),
        (
            "x = if (a) then b else c",
            "1:(= x () 5|5:(if 9:a 17:b 24:c))",
        ),
        (
            "x = case a of { B y -> y }",
            "1:(= x () 5|5:(case 10:a (17:(B 19:y) 24:y)))",
        ),
        (
            "x = do { (y) <- a; b }",
            "1:(= x () 5|5:(do (<- 11:y 17:a) 20:b))",
        ),
        (
            "x = let { f (y, z) = 1 } in f",
            "1:(= x () 5|5:(let (11:(= f (13:(, 14:y 17:z)) 22|22:1)) 29:f))",
        ),
        ("x = do y\n       z", "1:(= x () 5|5:(do 8:y 2.8:z))"),
        (
            "x = (\\y -> y) a",
            "1:(= x () 5|15:(@ 6:(\\ (7:y) 12:y) 15:a))",
        ),
    ];
    assert_eq!(rt; wrong_rows(rt.alloc(), &rt, true, &rows)?, 0);
    Ok(())
}

#[test]
fn equations_and_patterns_stand_at_their_places(rt: HostRuntime) -> Result<(), Fail> {
    let rows = [
        ("(A y) + z = y", "1:(= + (2:(A 4:y) 9:z) 13|13:y)"),
        ("(+) y = y", "1:(= + (5:y) 9|9:y)"),
        ("x `f` y = ((x))", "1:(= f (1:x 7:y) 11|13:x)"),
        (
            "f y = y where { g = y }",
            "1:(= f (3:y) 7|7:y (17:(= g () 21|21:y)))",
        ),
        (
            "f (A [b | c = (d)]) = 1",
            "1:(= f (4:[A (7:b 7:b) (11:c 16:d)]) 23|23:1)",
        ),
        (
            "f (()) _ 1 B01 = 1",
            "1:(= f (4:() 8:_ 10:1 12:2'1) 18|18:1)",
        ),
        (
            "x = 1\n  where y = (2)",
            "1:(= x () 5|5:1 (2.9:(= y () 2.13|2.14:2)))",
        ),
    ];
    assert_eq!(rt; wrong_rows(rt.alloc(), &rt, true, &rows)?, 0);
    Ok(())
}

#[test]
fn types_stand_at_their_first_tokens(rt: HostRuntime) -> Result<(), Fail> {
    let rows = [
        ("x :: (a)", "1:(sig (1:x) () 7:a)"),
        ("x :: ()", "1:(sig (1:x) () 6:())"),
        ("x :: (M) a", "1:(sig (1:x) () 6:(@ 7:M 10:a))"),
        ("x :: M a b", "1:(sig (1:x) () 6:(@ 6:(@ 6:M 8:a) 10:b))"),
        ("x :: (a, b)", "1:(sig (1:x) () 6:(, 7:a 10:b))"),
        (
            "x :: Bit (n + m)",
            "1:(sig (1:x) () 6:(@ 6:Bit 10:(+ 11:n 15:m)))",
        ),
        (
            "x :: (a -> b) -> c",
            "1:(sig (1:x) () 6:(-> 7:(-> 7:a 12:b) 18:c))",
        ),
        (
            "x :: M a -> b",
            "1:(sig (1:x) () 6:(-> 6:(@ 6:M 8:a) 13:b))",
        ),
        ("x :: (C a) => (a)", "1:(sig (1:x) ((7:C 9:a)) 16:a)"),
        ("(+), f :: a", "1:(sig (1:+ 6:f) () 11:a)"),
    ];
    assert_eq!(rt; wrong_rows(rt.alloc(), &rt, true, &rows)?, 0);
    Ok(())
}

#[test]
fn declarations_stand_at_their_words(rt: HostRuntime) -> Result<(), Fail> {
    let rows = [
        ("infixl 6 `f`, +", "1:(infixl 6 (11:f 15:+))"),
        (
            "data T a = A (M b)",
            "1:(data 6:T (8:a) (12:A 15:(@ 15:M 17:b)))",
        ),
        (
            "area r <- (f) x :: T",
            "1:(area 6:r <- 11|15:(@ 12:f 15:x) 20:T)",
        ),
        (
            "area r <- each i -> fields [a <- (b)] :: T",
            "1:(area 6:r <- 11|(each 16:i 21|(fields (29:a 34|35:b))) 42:T)",
        ),
        ("port p :: In (T) at X00", "1:(port 6:p In 15:T 8'0)"),
        (
            "class C a => D a where { f :: a }",
            "1:(class ((7:C 9:a)) 14:D (16:a) 26:(sig (26:f) () 31:a))",
        ),
        (
            "instance C (M a) if D a where { f = a }",
            "1:(instance 10:C 13:(@ 13:M 15:a) ((21:D 23:a)) 33:(= f () 37|37:a))",
        ),
        (
            "{ bitdata T = A [f, g :: a] }",
            "3:(bitdata 11:T (15:A ((18:f 21:g) 26:a)))",
        ),
        ("{ struct T [f :: (a)]; }", "3:(struct 10:T ((13:f) 19:a))"),
    ];
    assert_eq!(rt; wrong_rows(rt.alloc(), &rt, true, &rows)?, 0);
    Ok(())
}
