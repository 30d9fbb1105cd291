ghost use Rattle.std.specs.Prelude.{◌≡◌, ◌<◌, ◌≤◌, IfOk, OnOk};
ghost use Rattle.hb_unknowns.specs.Equations.{type_count};

use hb_base::Memory;
use hb_types::{Atom, Kind};
use hb_unknowns::{Pair, Unknowns};
use std::alloc::Global;

/// How many calls are chained.
const CALLS: usize = 2_000;

/// The equation of a call, and the type of its result.
#[derive(Clone, Copy)]
struct Call {
    equation: Pair,
    result: usize,
}

/// The type of functions: the constructor 0 applied to two types.
fn arrow(all: &mut Unknowns, from: usize, to: usize) -> Result<usize, Memory>
    requires from { from < type_count all.old }
    requires to { to < type_count all.old }
    ensures more { type_count all.old ≤ type_count all.new }
    ensures place { IfOk result (λ place. place < type_count all.new) }
{
    let con = all.leaf(Atom::Con(0))?;
    let half = all.apply(con, from)?;
    let whole = all.apply(half, to)?;
    Ok(whole)
}

/// A function from any type `a` to the constructor 1 applied to `a` is called. The result is an unknown of which the
/// type of the call speaks, so what it is said to be may contain it, and is walked down.
fn make_call(all: &mut Unknowns, argument: usize) -> Result<Call, Memory>
    requires { argument < type_count all.old }
    ensures more { type_count all.old ≤ type_count all.new }
    ensures left { IfOk result (λ call. call.equation.left < type_count all.new) }
    ensures right { IfOk result (λ call. call.equation.right < type_count all.new) }
    ensures result { IfOk result (λ call. call.result < type_count all.new) }
{
    let taken = all.fresh(Kind::star())?;
    let result = all.fresh(Kind::star())?;
    let con = all.leaf(Atom::Con(1))?;
    let given = all.apply(con, taken)?;
    let left = arrow(all, taken, given)?;
    let right = arrow(all, argument, result)?;
    Ok(Call {
        equation: Pair { left, right },
        result,
    })
}

/// Each call is of the result of the one before, and its equation is taken in at once.
pub fn one_by_one(alloc: Global) -> Result<usize, Memory>
    ensures { IfOk result (λ n. n ≤ 2000) }
{
    let mut all = Unknowns::new(alloc);
    let mut argument = all.fresh(Kind::star())?;
    let mut taken = 0;
    for _number in 0..CALLS {
        let call = make_call(&mut all, argument)?;
        if let Ok(()) = all.equate(call.equation.left, call.equation.right) {
            taken += 1;
        }
        argument = call.result;
    }
    Ok(taken)
}

/// The same calls, whose equations are all taken in together.
pub fn together(alloc: Global) -> Result<usize, Memory>
    ensures { IfOk result (λ n. n ≤ 2000) }
{
    let mut all = Unknowns::new(alloc);
    let mut argument = all.fresh(Kind::star())?;
    let mut equations = Vec::new(alloc);
    for _number in 0..CALLS {
        let call = make_call(&mut all, argument)?;
        equations.push(call.equation)?;
        argument = call.result;
    }
    match all.equate_all(&equations) {
        Ok(()) => Ok(equations.len()),
        Err(_) => Ok(0),
    }
}
