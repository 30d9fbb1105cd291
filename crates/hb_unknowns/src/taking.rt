ghost use Rattle.std.specs.Prelude.{◌≡◌, ℕ, [], length, IfOk, OnErr, MatchBool};
ghost use Rattle.hb_types.specs.Finite.{Finite};
ghost use Rattle.hb_unknowns.specs.Graph.{Obeys, IsGraph, AreWithin, IsImpossible};
ghost use Rattle.hb_unknowns.specs.Order.{AreClear};
ghost use Rattle.hb_unknowns.specs.Referred.{AreReferred, AreRaised};
ghost use Rattle.hb_unknowns.specs.Trail.{IsTracked};
ghost use Rattle.hb_unknowns.specs.Equations.{IsTaken};

use crate::graph::unify;
use crate::node::{Entry, Pair};
use crate::order::{Mark, is_solvable};
use crate::referred::{is_harmless, refer_all};
use crate::trail::{Change, places, undo};
use hb_base::Memory;
use std::alloc::Global;

/// Takes in the equations that wait, and notes what it writes. Answers `false` where no finite types make all true. An
/// equation that cannot make a type contain itself needs no walk.
fn attempt(
    alloc: Global,
    entries: &mut Vec<Entry>,
    marks: &mut Vec<Mark>,
    referred: &mut Vec<bool>,
    pending: &mut Vec<Pair>,
    trail: &mut Vec<Change>,
) -> Result<bool, Memory>
    requires graph { IsGraph entries.old.items }
    requires solution { (v : ℕ → Finite) × Obeys v entries.old.items }
    requires clear { AreClear entries.old.items marks.old.items }
    requires referred { AreReferred entries.old.items referred.old.items }
    requires pending { AreWithin (length entries.old.items) pending.old.items }
    requires trail { trail.old.items ≡ [] }
    ensures tracked { IsTracked entries.old.items [] entries.new.items trail.new.items }
    ensures clear { AreClear entries.new.items marks.new.items }
    ensures raised { AreRaised referred.old.items referred.new.items }
    ensures referred { IfOk result (λ ok. MatchBool ok (AreReferred entries.new.items referred.new.items) (Unit {0})) }
    ensures end { IfOk result (λ ok. MatchBool ok (IsTaken entries.old.items pending.old.items entries.new.items) (IsImpossible entries.old.items pending.old.items)) }
{
    let harmless = is_harmless(entries, referred, pending);
    if !unify(entries, pending, trail)? {
        return Ok(false);
    }
    let starts = places(alloc, trail)?;
    refer_all(referred, entries, &starts);
    if harmless {
        return Ok(true);
    }
    let ok = is_solvable(alloc, entries, marks, &starts)?;
    Ok(ok)
}

/// Takes in the equations that wait. Answers `false` where no finite types make all true; then, and after `Memory`,
/// the entries are as before.
pub fn take_in(
    alloc: Global,
    entries: &mut Vec<Entry>,
    marks: &mut Vec<Mark>,
    referred: &mut Vec<bool>,
    pending: &mut Vec<Pair>,
) -> Result<bool, Memory>
    requires graph { IsGraph entries.old.items }
    requires solution { (v : ℕ → Finite) × Obeys v entries.old.items }
    requires clear { AreClear entries.old.items marks.old.items }
    requires referred { AreReferred entries.old.items referred.old.items }
    requires pending { AreWithin (length entries.old.items) pending.old.items }
    ensures clear { AreClear entries.new.items marks.new.items }
    ensures referred { AreReferred entries.new.items referred.new.items }
    ensures end { IfOk result (λ ok. MatchBool ok (IsTaken entries.old.items pending.old.items entries.new.items) ((entries.new.items ≡ entries.old.items) × IsImpossible entries.old.items pending.old.items)) }
    ensures same { OnErr result (entries.new.items ≡ entries.old.items) }
{
    let mut trail = Vec::new(alloc);
    let answer = attempt(alloc, entries, marks, referred, pending, &mut trail);
    match answer {
        Ok(true) => Ok(true),
        Ok(false) => {
            undo(entries, &mut trail);
            Ok(false)
        }
        Err(memory) => {
            undo(entries, &mut trail);
            Err(memory)
        }
    }
}
