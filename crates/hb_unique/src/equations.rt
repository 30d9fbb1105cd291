ghost use Rattle.std.specs.Prelude.{IfOk, OnOk};
ghost use Rattle.hb_unknowns.specs.Graph.{AreWithin};

use hb_base::Memory;
use hb_types::{Form, Kind, Types};
use hb_unknowns::{EquateError, Pair, Unknowns};
use std::alloc::Global;

/// What came of equations that were taken in together.
#[derive(Clone, Copy, Debug, PartialEq, Eq)]
pub enum Paired {
    Agreed,
    Clashed,
}

/// Puts a form at the end of unknowns, at the same place as in its table.
fn put(unknowns: &mut Unknowns, form: Form) -> Result<usize, Memory> {
    match form {
        Form::Unknown(_) => unknowns.fresh(Kind::star()),
        Form::Leaf(atom) => unknowns.leaf(atom),
        Form::Apply(f, x) => {
            let count = unknowns.len();
            if f < count && x < count {
                unknowns.apply(f, x)
            } else {
                unknowns.fresh(Kind::star())
            }
        }
    }
}

/// Unknowns with the types of a table at the same places, and without equations. Each unknown of the table is one of its
/// own, whatever its number.
pub fn unknowns_of(alloc: Global, types: &Types) -> Result<Unknowns, Memory> {
    let mut unknowns = Unknowns::new(alloc);
    for place in 0..types.len() {
        put(&mut unknowns, types.form(place))?;
    }
    Ok(unknowns)
}

/// Puts one more equation at the end, if both its types are among so many.
#[tactic(auto, using(crate::proofs::PairLaws::one_more_pair))]
fn push_inside(count: usize, inside: &mut Vec<Pair>, pair: Pair) -> Result<(), Memory>
    requires inside { AreWithin count inside.old.items }
    ensures inside { OnOk result (AreWithin count inside.new.items) }
{
    if pair.left < count && pair.right < count {
        inside.push(pair)?;
    }
    Ok(())
}

/// The equations both whose types are among so many.
fn pairs_inside(alloc: Global, count: usize, pairs: &[Pair]) -> Result<Vec<Pair>, Memory>
    ensures inside { IfOk result (λ inside. AreWithin count inside.items) }
{
    let mut inside = Vec::new(alloc);
    for pair in pairs {
        push_inside(count, &mut inside, *pair)?;
    }
    Ok(inside)
}

/// Takes in many equations at once, as far as they speak of types that are there. After `Clashed` all is as before.
pub fn take_equations(
    alloc: Global,
    unknowns: &mut Unknowns,
    pairs: &[Pair],
) -> Result<Paired, Memory> {
    let inside = pairs_inside(alloc, unknowns.len(), pairs)?;
    match unknowns.equate_all(&inside) {
        Ok(()) => Ok(Paired::Agreed),
        Err(EquateError::Clash) => Ok(Paired::Clashed),
        Err(EquateError::Memory) => Err(Memory),
    }
}
