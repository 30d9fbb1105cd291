//! Each kind of form at depths 199, 200 and 201, and deeper. The body of a definition is at depth 2. With the block of the
//! program, 199 other brackets and blocks may be open at one place.

use crate::tables::repeated;
use crate::trees::outcome;
use std::alloc::Global;
use std::test::Fail;

/// How often two parts are repeated, with three texts around them; the answers to one more and to two more.
#[derive(Clone, Copy)]
struct Nest {
    count: u32,
    texts: [&'static str; 3],
    parts: [&'static str; 2],
    refusals: [&'static str; 2],
}

/// Whether the parts, so many times, give this; if not, it is printed.
fn is_answer(
    alloc: Global,
    rt: &impl Print,
    nest: &Nest,
    count: u32,
    wanted: &str,
) -> Result<bool, Fail> {
    let source = repeated(alloc, count, nest.texts, nest.parts)?;
    let found = outcome(alloc, source.as_str())?;
    let is_right = found.as_bytes() == wanted.as_bytes();
    if !is_right {
        let [before, _, _] = nest.texts;
        let [part, _] = nest.parts;
        println!(rt; "{before}{part} {count} times: wanted {wanted}, found {found}")?;
    }
    Ok(is_right)
}

/// How many of these rows do not hold.
fn wrong_nests(alloc: Global, rt: &impl Print, nests: &[Nest]) -> Result<u32, Fail> {
    let mut wrong: u32 = 0;
    for nest in nests {
        let [one_more, two_more] = nest.refusals;
        let count = nest.count;
        let is_right = is_answer(alloc, rt, nest, count.saturating_sub(1), "read")?
            && is_answer(alloc, rt, nest, count, "read")?
            && is_answer(alloc, rt, nest, count.saturating_add(1), one_more)?
            && is_answer(alloc, rt, nest, count.saturating_add(2), two_more)?;
        if !is_right {
            wrong = wrong.saturating_add(1);
        }
    }
    Ok(wrong)
}

#[test]
fn lambdas_and_choices(rt: HostRuntime) -> Result<(), Fail> {
    let nests = [
        // The pattern of a lambda is one level deeper than the lambda.
        Nest {
            count: 198,
            texts: ["x = ", "y", ""],
            parts: ["\\a -> ", ""],
            refusals: ["E29 1:1194 depth", "E29 1:1194 depth"],
        },
        Nest {
            count: 198,
            texts: ["x = ", "c", ""],
            parts: ["if a then b else ", ""],
            refusals: ["E29 1:3374 depth", "E29 1:3374 depth"],
        },
        Nest {
            count: 198,
            texts: ["x = ", "a", ""],
            parts: ["if ", " then b else c"],
            refusals: ["E29 1:602 depth", "E29 1:602 depth"],
        },
        Nest {
            count: 198,
            texts: ["x = ", "c", ""],
            parts: ["case a of { b -> ", " }"],
            refusals: ["E29 1:3376 depth", "E29 1:3398 brackets"],
        },
    ];
    assert_eq!(rt; wrong_nests(rt.alloc(), &rt, &nests)?, 0);
    Ok(())
}

#[test]
fn blocks_and_local_definitions(rt: HostRuntime) -> Result<(), Fail> {
    let nests = [
        Nest {
            count: 198,
            texts: ["x = ", "a", ""],
            parts: ["do { ", " }"],
            refusals: ["E29 1:1000 depth", "E29 1:1003 brackets"],
        },
        Nest {
            count: 198,
            texts: ["x = ", "a", ""],
            parts: ["let { } in ", ""],
            refusals: ["E29 1:2194 depth", "E29 1:2194 depth"],
        },
        // A local definition is a level, and so is what holds it.
        Nest {
            count: 99,
            texts: ["x = ", "a", ""],
            parts: ["let { y = ", " } in y"],
            refusals: ["E29 1:1001 depth", "E29 1:1001 depth"],
        },
        Nest {
            count: 198,
            texts: ["x = a", "", ""],
            parts: [" where { y = a", " }"],
            refusals: ["E29 1:2791 depth", "E29 1:2799 brackets"],
        },
    ];
    assert_eq!(rt; wrong_nests(rt.alloc(), &rt, &nests)?, 0);
    Ok(())
}

#[test]
fn runs_and_applications_have_their_parts_as_many_levels_deeper(
    rt: HostRuntime,
) -> Result<(), Fail> {
    let nests = [
        Nest {
            count: 198,
            texts: ["x = a", "", ""],
            parts: [" + a", ""],
            refusals: ["E29 1:5 depth", "E29 1:5 depth"],
        },
        Nest {
            count: 198,
            texts: ["x = f", "", ""],
            parts: [" a", ""],
            refusals: ["E29 1:5 depth", "E29 1:5 depth"],
        },
        // Brackets around what is applied are no level.
        Nest {
            count: 99,
            texts: ["x = (f", ")", ""],
            parts: [" a", " a"],
            refusals: ["E29 1:6 depth", "E29 1:6 depth"],
        },
        Nest {
            count: 198,
            texts: ["x = ", "a", ""],
            parts: ["f (", ")"],
            refusals: ["E29 1:599 depth", "E29 1:604 brackets"],
        },
    ];
    assert_eq!(rt; wrong_nests(rt.alloc(), &rt, &nests)?, 0);
    Ok(())
}

#[test]
fn selections_updates_and_pairs(rt: HostRuntime) -> Result<(), Fail> {
    let nests = [
        Nest {
            count: 198,
            texts: ["x = a", "", ""],
            parts: [".f", ""],
            refusals: ["E29 1:5 depth", "E29 1:5 depth"],
        },
        Nest {
            count: 198,
            texts: ["x = a", "", ""],
            parts: [" [f = 1]", ""],
            refusals: ["E29 1:5 depth", "E29 1:5 depth"],
        },
        Nest {
            count: 198,
            texts: ["x = ", "a", ""],
            parts: ["A [f = ", "]"],
            refusals: ["E29 1:1398 depth", "E29 1:1400 brackets"],
        },
        Nest {
            count: 198,
            texts: ["x = ", "b", ""],
            parts: ["(a, ", ")"],
            refusals: ["E29 1:798 depth", "E29 1:801 brackets"],
        },
    ];
    assert_eq!(rt; wrong_nests(rt.alloc(), &rt, &nests)?, 0);
    Ok(())
}

#[test]
fn arrows_and_applications_in_types(rt: HostRuntime) -> Result<(), Fail> {
    let nests = [
        Nest {
            count: 198,
            texts: ["x :: a", "", ""],
            parts: [" -> a", ""],
            refusals: ["E29 1:6 depth", "E29 1:6 depth"],
        },
        Nest {
            count: 198,
            texts: ["x :: ", "a", ""],
            parts: ["(", ") -> b"],
            refusals: ["E29 1:205 depth", "E29 1:205 brackets"],
        },
        Nest {
            count: 198,
            texts: ["x :: M", "", ""],
            parts: [" a", ""],
            refusals: ["E29 1:6 depth", "E29 1:6 depth"],
        },
        Nest {
            count: 198,
            texts: ["x :: ", "a", ""],
            parts: ["M (", ")"],
            refusals: ["E29 1:600 depth", "E29 1:605 brackets"],
        },
    ];
    assert_eq!(rt; wrong_nests(rt.alloc(), &rt, &nests)?, 0);
    Ok(())
}

#[test]
fn sums_pairs_and_predicates(rt: HostRuntime) -> Result<(), Fail> {
    let nests = [
        Nest {
            count: 198,
            texts: ["x :: ", "a", ""],
            parts: ["(n + ", ")"],
            refusals: ["E29 1:997 depth", "E29 1:1001 brackets"],
        },
        Nest {
            count: 198,
            texts: ["x :: ", "a", ""],
            parts: ["(b, ", ")"],
            refusals: ["E29 1:799 depth", "E29 1:802 brackets"],
        },
        // A predicate is a level.
        Nest {
            count: 197,
            texts: ["x :: C (", "a", ") => b"],
            parts: ["M (", ")"],
            refusals: ["E29 1:600 depth", "E29 1:605 brackets"],
        },
    ];
    assert_eq!(rt; wrong_nests(rt.alloc(), &rt, &nests)?, 0);
    Ok(())
}

#[test]
fn patterns(rt: HostRuntime) -> Result<(), Fail> {
    let nests = [
        Nest {
            count: 198,
            texts: ["f ", "b", " = x"],
            parts: ["(A ", ")"],
            refusals: ["E29 1:600 depth", "E29 1:600 brackets"],
        },
        Nest {
            count: 198,
            texts: ["f ", "b", " = x"],
            parts: ["(a, ", ")"],
            refusals: ["E29 1:796 depth", "E29 1:799 brackets"],
        },
        Nest {
            count: 198,
            texts: ["f ", "b", " = x"],
            parts: ["A [g = ", "]"],
            refusals: ["E29 1:1396 depth", "E29 1:1398 brackets"],
        },
    ];
    assert_eq!(rt; wrong_nests(rt.alloc(), &rt, &nests)?, 0);
    Ok(())
}

#[test]
fn initialisers(rt: HostRuntime) -> Result<(), Fail> {
    let nests = [
        // A cell is a level, and its expression is the next.
        Nest {
            count: 197,
            texts: ["area r <- ", "x", " :: T"],
            parts: ["each i -> ", ""],
            refusals: ["E29 1:1991 depth", "E29 1:2001 depth"],
        },
        Nest {
            count: 197,
            texts: ["area r <- ", "x", " :: T"],
            parts: ["fields [a <- ", "]"],
            refusals: ["E29 1:2585 depth", "E29 1:2598 depth"],
        },
    ];
    assert_eq!(rt; wrong_nests(rt.alloc(), &rt, &nests)?, 0);
    Ok(())
}

#[test]
fn an_each_that_is_too_deep_stands_at_its_word(rt: HostRuntime) -> Result<(), Fail> {
    let alloc = rt.alloc();
    let mut wrong: u32 = 0;
    for (count, wanted) in [
        (198, "E29 1:1991 depth"),
        (199, "E29 1:2001 depth"),
        (200, "E29 1:2001 depth"),
        (201, "E29 1:2001 depth"),
        (300, "E29 1:2001 depth"),
    ] {
        let source = repeated(
            alloc,
            count,
            ["area r <- ", "x", " :: T"],
            ["each i -> ", ""],
        )?;
        if outcome(alloc, source.as_str())?.as_bytes() != wanted.as_bytes() {
            wrong = wrong.saturating_add(1);
        }
    }
    assert_eq!(rt; wrong, 0);
    Ok(())
}

#[test]
fn methods_are_levels_and_constructors_are_none(rt: HostRuntime) -> Result<(), Fail> {
    let nests = [
        Nest {
            count: 197,
            texts: ["class C a where { f :: a", "", " }"],
            parts: [" -> a", ""],
            refusals: ["E29 1:24 depth", "E29 1:24 depth"],
        },
        Nest {
            count: 197,
            texts: ["instance C a where { f = ", "y", " }"],
            parts: ["\\a -> ", ""],
            refusals: ["E29 1:1209 depth", "E29 1:1209 depth"],
        },
        Nest {
            count: 198,
            texts: ["data T = A ", "a", ""],
            parts: ["(M ", ")"],
            refusals: ["E29 1:607 depth", "E29 1:609 brackets"],
        },
    ];
    assert_eq!(rt; wrong_nests(rt.alloc(), &rt, &nests)?, 0);
    Ok(())
}
