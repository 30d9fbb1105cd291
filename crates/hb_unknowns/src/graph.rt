ghost use Rattle.std.specs.Prelude.{◌≡◌, ◌≢◌, ℕ, ◌+◌, ◌*◌, ◌<◌, ◌≤◌, ◌⊎◌, ◌↔◌, length, MatchResult, IfOk, MatchBool};
ghost use Rattle.hb_types.specs.Finite.{Finite};
ghost use Rattle.hb_unknowns.specs.Joined.{at};
ghost use Rattle.hb_unknowns.specs.Graph.{Obeys, IsAbove, IsGraph, IsRoot, AreWithin, Turned, Clashes, Unified, IsImpossible};
ghost use Rattle.hb_unknowns.specs.Trail.{AreInside, IsTracked};

use crate::node::{Entry, Node, Pair, entry_at, join, node_at, push_parts};
use crate::trail::{Change, write};
use hb_base::Memory;

/// The node where links from this one end.
pub fn root(entries: &[Entry], from: usize) -> usize
    requires within { from < length entries.now }
    requires graph { IsGraph entries.now }
    ensures within { result < length entries.now }
    ensures root { IsRoot (at entries.now result) }
    ensures same { (v : ℕ → Finite) → Obeys v entries.now → v from ≡ v result }
{
    let mut place = from;
    while let Node::Link(next) = node_at(entries, place) {
        place = next;
    }
    place
}

/// Whether the first node stands above the second one.
fn is_above(entries: &[Entry], first: usize, second: usize) -> bool
    ensures { MatchBool result (IsAbove entries.now first second) (IsAbove entries.now second first ⊎ (first ≡ second)) }
{
    let a = entry_at(entries, first).level;
    let b = entry_at(entries, second).level;
    if a < b {
        return true;
    }
    if b < a {
        return false;
    }
    first < second
}

/// The level of a node once one of a second level is linked to it: one lower where both were the same.
fn raised(level: u64, second: u64) -> u64
    ensures { result ≤ level }
{
    if level == second {
        level.saturating_sub(1)
    } else {
        level
    }
}

/// Makes one of two ends of links, of which `low` stands above.
fn link(
    entries: &mut Vec<Entry>,
    pending: &mut Vec<Pair>,
    trail: &mut Vec<Change>,
    low: usize,
    high: usize,
) -> Result<bool, Memory>
    requires order { IsAbove entries.old.items low high }
    requires low_within { low < length entries.old.items }
    requires high_within { high < length entries.old.items }
    requires graph { IsGraph entries.old.items }
    requires pending { AreWithin (length entries.old.items) pending.old.items }
    requires trail { AreInside (length entries.old.items) trail.old.items }
    requires low_root { IsRoot (at entries.old.items low) }
    requires high_root { IsRoot (at entries.old.items high) }
    ensures tracked { IsTracked entries.old.items trail.old.items entries.new.items trail.new.items }
    ensures linked { IfOk result (λ ok. MatchBool ok (Turned low high entries.old.items pending.old.items entries.new.items pending.new.items) (Clashes low high entries.old.items)) }
{
    let first = entry_at(entries, low);
    let second = entry_at(entries, high);
    let Some(both) = join(first.node, second.node) else {
        return Ok(false);
    };
    let linked = Entry {
        node: Node::Link(low),
        level: second.level,
    };
    write(entries, trail, high, linked)?;
    let joined = Entry {
        node: both,
        level: raised(first.level, second.level),
    };
    write(entries, trail, low, joined)?;
    push_parts(pending, first.node, second.node)?;
    Ok(true)
}

/// Takes in one equation between nodes.
fn turn(
    entries: &mut Vec<Entry>,
    pending: &mut Vec<Pair>,
    trail: &mut Vec<Change>,
    pair: Pair,
) -> Result<bool, Memory>
    requires left { pair.left < length entries.old.items }
    requires right { pair.right < length entries.old.items }
    requires graph { IsGraph entries.old.items }
    requires pending { AreWithin (length entries.old.items) pending.old.items }
    requires trail { AreInside (length entries.old.items) trail.old.items }
    ensures tracked { IsTracked entries.old.items trail.old.items entries.new.items trail.new.items }
    ensures turned { IfOk result (λ ok. MatchBool ok (Turned pair.left pair.right entries.old.items pending.old.items entries.new.items pending.new.items) (Clashes pair.left pair.right entries.old.items)) }
{
    let left = root(entries, pair.left);
    let right = root(entries, pair.right);
    if left == right {
        return Ok(true);
    }
    let ok = if is_above(entries, left, right) {
        link(entries, pending, trail, left, right)?
    } else {
        link(entries, pending, trail, right, left)?
    };
    Ok(ok)
}

/// Takes in all equations that wait. Answers `false` where no types obey the graph and make them true.
pub fn unify(
    entries: &mut Vec<Entry>,
    pending: &mut Vec<Pair>,
    trail: &mut Vec<Change>,
) -> Result<bool, Memory>
    requires graph { IsGraph entries.old.items }
    requires pending { AreWithin (length entries.old.items) pending.old.items }
    requires trail { AreInside (length entries.old.items) trail.old.items }
    ensures tracked { IsTracked entries.old.items trail.old.items entries.new.items trail.new.items }
    ensures unified { IfOk result (λ ok. MatchBool ok (Unified entries.old.items pending.old.items entries.new.items) (IsImpossible entries.old.items pending.old.items)) }
{
    while let Some(pair) = pending.pop() {
        if !turn(entries, pending, trail, pair)? {
            return Ok(false);
        }
    }
    Ok(true)
}
