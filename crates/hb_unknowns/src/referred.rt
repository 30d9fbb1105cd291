ghost use Rattle.std.specs.Prelude.{◌≡◌, ℕ, true, MatchBool};
ghost use Rattle.hb_unknowns.specs.Joined.{at};
ghost use Rattle.hb_unknowns.specs.Order.{IsPart, Member};
ghost use Rattle.hb_unknowns.specs.Referred.{flag_at, AreReferred, AreRaised, IsLoose, IsHarmless};

use crate::node::{Entry, Node, Pair, node_at};

/// Whether another node speaks of a node, or may have done so.
fn is_referred(referred: &[bool], place: usize) -> bool
    ensures { result ≡ flag_at referred.now place }
{
    match referred.get(place) {
        Some(flag) => *flag,
        None => true,
    }
}

/// Notes that a node is spoken of.
fn raise(referred: &mut Vec<bool>, place: usize)
    ensures raised { AreRaised referred.old.items referred.new.items }
    ensures here { flag_at referred.new.items place ≡ true }
{
    if place < referred.len() {
        referred[place] = true;
    }
}

/// Notes of which nodes a node speaks.
pub fn refer(referred: &mut Vec<bool>, node: Node)
    ensures raised { AreRaised referred.old.items referred.new.items }
    ensures parts { (p : ℕ) → IsPart p node → flag_at referred.new.items p ≡ true }
{
    match node {
        Node::Free | Node::Leaf(_) => {}
        Node::Link(part) => raise(referred, part),
        Node::Apply(f, x) => {
            raise(referred, f);
            raise(referred, x);
        }
    }
}

/// Notes of which nodes those at some places speak.
pub fn refer_all(referred: &mut Vec<bool>, entries: &[Entry], places: &[usize])
    ensures raised { AreRaised referred.old.items referred.new.items }
    ensures parts { (k p : ℕ) → Member k places.now → IsPart p (at entries.now k) → flag_at referred.new.items p ≡ true }
{
    for place in places {
        refer(referred, node_at(entries, *place));
    }
}

/// Whether nothing is known of a node, and no node speaks of it.
fn is_loose(entries: &[Entry], referred: &[bool], place: usize) -> bool
    requires referred { AreReferred entries.now referred.now }
    ensures { MatchBool result (IsLoose entries.now place) (Unit {0}) }
{
    match node_at(entries, place) {
        Node::Free => !is_referred(referred, place),
        _ => false,
    }
}

/// Whether the equations are one alone, with a side of which nothing is known, and of which no node speaks. That side
/// is no part of the other one, so that no type comes to contain itself.
pub fn is_harmless(entries: &[Entry], referred: &[bool], pairs: &[Pair]) -> bool
    requires referred { AreReferred entries.now referred.now }
    ensures { MatchBool result (IsHarmless entries.now pairs.now) (Unit {0}) }
{
    if pairs.len() != 1 {
        return false;
    }
    let pair = pairs[0];
    if is_loose(entries, referred, pair.left) {
        return true;
    }
    is_loose(entries, referred, pair.right)
}
