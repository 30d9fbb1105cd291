//! Takes in 100,000 equations three times, to measure how long that takes: a chain of unknowns, a tower of applications
//! from above, and one from below. Then forty nested pairs, whose type has 2^40 leaves when it is written out. With the
//! word `calls` it takes in the equations of 2,000 calls, each of the result of the one before, in one call each, and
//! with the word `together` in one call for all. Prints how many equations were taken in.
#![tactic(auto)]

mod calls;

ghost use Rattle.std.specs.Prelude.{◌≡◌, ◌+◌, ◌<◌, ◌≤◌, IfOk};
ghost use Rattle.hb_unknowns.specs.Equations.{type_count};

use calls::{one_by_one, together};
use hb_base::Memory;
use hb_types::{Atom, Kind};
use hb_unknowns::Unknowns;
use std::alloc::Global;
use std::env::Env;
use std::process::ExitCode;

/// How many equations of a kind are taken in.
const COUNT: usize = 100_000;

/// How many pairs are nested.
const DEPTH: usize = 40;

/// One unknown more than there are equations.
fn unknowns(alloc: Global) -> Result<Unknowns, Memory>
    ensures { IfOk result (λ u. type_count u ≡ 100001) }
{
    let mut all = Unknowns::new(alloc);
    for _number in 0..COUNT + 1 {
        let _unknown = all.fresh(Kind::star())?;
    }
    Ok(all)
}

/// Each unknown is the next one.
fn chain(alloc: Global) -> Result<usize, Memory>
    ensures { IfOk result (λ n. n ≤ 100000) }
{
    let mut all = unknowns(alloc)?;
    let mut taken = 0;
    for number in 0..COUNT {
        if let Ok(()) = all.equate(number, number + 1) {
            taken += 1;
        }
    }
    Ok(taken)
}

/// Each unknown is a constructor applied to the next one.
fn tower_from_above(alloc: Global) -> Result<usize, Memory>
    ensures { IfOk result (λ n. n ≤ 100000) }
{
    let mut all = unknowns(alloc)?;
    let con = all.leaf(Atom::Con(0))?;
    let mut taken = 0;
    for number in 0..COUNT {
        let whole = all.apply(con, number + 1)?;
        if let Ok(()) = all.equate(number, whole) {
            taken += 1;
        }
    }
    Ok(taken)
}

/// Each unknown is a constructor applied to the one before.
fn tower_from_below(alloc: Global) -> Result<usize, Memory>
    ensures { IfOk result (λ n. n ≤ 100000) }
{
    let mut all = unknowns(alloc)?;
    let con = all.leaf(Atom::Con(0))?;
    let mut taken = 0;
    for number in 0..COUNT {
        let whole = all.apply(con, number)?;
        if let Ok(()) = all.equate(number + 1, whole) {
            taken += 1;
        }
    }
    Ok(taken)
}

/// The pair of a type with itself: the constructor 0 applied to it twice.
fn pair(all: &mut Unknowns, part: usize) -> Result<usize, Memory>
    requires part { part < type_count all.old }
    ensures grown { IfOk result (λ place. (place < type_count all.new) × (type_count all.old ≤ type_count all.new)) }
{
    let con = all.leaf(Atom::Con(0))?;
    let half = all.apply(con, part)?;
    let whole = all.apply(half, part)?;
    Ok(whole)
}

/// Each unknown is the pair of the one before with itself.
fn nested_pairs(alloc: Global) -> Result<usize, Memory>
    ensures { IfOk result (λ n. n ≤ 40) }
{
    let mut all = unknowns(alloc)?;
    let mut taken = 0;
    for number in 0..DEPTH {
        let whole = pair(&mut all, number)?;
        if let Ok(()) = all.equate(number + 1, whole) {
            taken += 1;
        }
    }
    Ok(taken)
}

/// How many equations are taken in.
fn all_kinds(alloc: Global) -> Result<usize, Memory>
    ensures { IfOk result (λ n. n ≤ 300040) }
{
    let first = chain(alloc)?;
    let second = tower_from_above(alloc)?;
    let third = tower_from_below(alloc)?;
    let last = nested_pairs(alloc)?;
    Ok(first + second + third + last)
}

/// The longest word.
const LONGEST_WORD: usize = 16;

/// How many equations of the shape are taken in that the first word names; of all where there is no word.
fn shape(alloc: Global, rt: &impl Env) -> Result<usize, Memory> {
    let mut buffer = [0u8; LONGEST_WORD];
    let length = rt.arg(1, &mut buffer).unwrap_or(0);
    let word = buffer.get(..length).unwrap_or_default();
    if word == b"calls".as_slice() {
        return one_by_one(alloc);
    }
    if word == b"together".as_slice() {
        return together(alloc);
    }
    all_kinds(alloc)
}

fn main(rt: HostRuntime) -> ExitCode {
    let Ok(taken) = shape(rt.alloc(), &rt) else {
        return ExitCode::from(2);
    };
    match println!(rt; "taken {taken}") {
        Ok(()) => ExitCode::SUCCESS,
        Err(_) => ExitCode::from(2),
    }
}
