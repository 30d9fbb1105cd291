ghost use Rattle.std.specs.Prelude.{◌≡◌, ◌&&◌, ℕ, [], ◌<◌, length, reverse, IfOk};
ghost use Rattle.hb_types.specs.Finite.{Finite};
ghost use Rattle.hb_types.specs.Tables.{type_at, Extends, IsPlaced};
ghost use Rattle.hb_unknowns.specs.Joined.{at};
ghost use Rattle.hb_unknowns.specs.Graph.{Obeys, IsGraph};
ghost use Rattle.hb_unknowns.specs.Order.{IsPart, Member};
ghost use Rattle.hb_unknowns.specs.Equations.{IsSound, equations};
ghost use Rattle.hb_unknowns.specs.Full.{IsFound, IsOrder, IsFull, AreFull, found_at, AreFound, AreFullBelow};

use crate::node::{Entry, Node, node_at};
use crate::order::sorted;
use hb_base::{List, Memory};
use hb_types::{Form, Types};
use std::alloc::Global;

/// The type that was found for a node, by its place in a table, and whether it has no unknowns.
#[derive(Clone, Copy, Debug)]
pub struct Found {
    pub place: usize,
    pub known: bool,
}

pub fn found_at(found: &[Found], node: usize) -> Found
    ensures { result ≡ found_at found.now node }
{
    match found.get(node) {
        Some(one) => *one,
        None => Found {
            place: 0,
            known: false,
        },
    }
}

fn both(first: bool, second: bool) -> bool
    ensures { result ≡ (first && second) }
{
    first && second
}

/// Puts the type of a node, once those of its parts are there.
fn find(entries: &[Entry], types: &mut Types, found: &[Found], node: usize) -> Result<Found, Memory>
    requires graph { IsGraph entries.now }
    requires solution { (v : ℕ → Finite) × Obeys v entries.now }
    requires inside { node < length entries.now }
    requires parts { (p : ℕ) → IsPart p (at entries.now node) → IsFound entries.now types.old p (found_at found.now p) }
    ensures more { IfOk result (λ one. Extends types.old types.new) }
    ensures found { IfOk result (IsFound entries.now types.new node) }
{
    match node_at(entries, node) {
        Node::Free => {
            let place = types.push(Form::Unknown(node as u64))?;
            Ok(Found {
                place,
                known: false,
            })
        }
        Node::Link(part) => Ok(found_at(found, part)),
        Node::Leaf(atom) => {
            let place = types.push(Form::Leaf(atom))?;
            Ok(Found { place, known: true })
        }
        Node::Apply(f, x) => {
            let function = found_at(found, f);
            let argument = found_at(found, x);
            let place = types.push(Form::Apply(function.place, argument.place))?;
            let known = both(function.known, argument.known);
            Ok(Found { place, known })
        }
    }
}

/// Puts the types of all nodes, and answers for each node its type.
pub fn find_all(
    alloc: Global,
    entries: &[Entry],
    order: &[usize],
    types: &mut Types,
) -> Result<Vec<Found>, Memory>
    requires graph { IsGraph entries.now }
    requires solution { (v : ℕ → Finite) × Obeys v entries.now }
    requires order { IsOrder entries.now (reverse order.now) }
    ensures { IfOk result (λ found. AreFound entries.now types.new found.items) }
{
    let nothing = Found {
        place: 0,
        known: false,
    };
    let mut found = vec![in alloc; nothing; entries.len()]?;
    for node in order {
        let one = find(entries, types, &found, *node)?;
        found[*node] = one;
    }
    Ok(found)
}

/// Puts the full type of a place, once those of its parts are there: that of its node where it has no unknowns.
fn replace(
    types: &Types,
    entries: &[Entry],
    found: &[Found],
    full: &[usize],
    place: usize,
    table: &mut Types,
) -> Result<usize, Memory>
    requires sound { IsSound (equations types.now entries.now) }
    requires found { AreFound entries.now table.old found.now }
    requires place { place < length types.now }
    requires parts { AreFullBelow (equations types.now entries.now) place table.old full.now }
    ensures more { IfOk result (λ r. Extends table.old table.new) }
    ensures full { IfOk result (λ r. IsPlaced table.new r (IsFull (equations types.now entries.now) (type_at types.now place))) }
{
    match types.form(place) {
        Form::Unknown(number) => {
            let one = found_at(found, place);
            if one.known {
                return Ok(one.place);
            }
            let kept = table.push(Form::Unknown(number))?;
            Ok(kept)
        }
        Form::Leaf(atom) => {
            let leaf = table.push(Form::Leaf(atom))?;
            Ok(leaf)
        }
        Form::Apply(f, x) => {
            let whole = table.push(Form::Apply(full[f], full[x]))?;
            Ok(whole)
        }
    }
}

/// The full types of all places, and the table in which they stand.
pub fn replace_all(
    alloc: Global,
    types: &Types,
    entries: &[Entry],
    table: &mut Types,
) -> Result<Vec<usize>, Memory>
    requires sound { IsSound (equations types.now entries.now) }
    requires empty { table.old ≡ [] }
    ensures { IfOk result (λ places. AreFull (equations types.now entries.now) table.new places.items) }
{
    let order = sorted(alloc, entries)?;
    let found = find_all(alloc, entries, &order, table)?;
    let mut places = Vec::new(alloc);
    for place in 0..types.len() {
        let full = replace(types, entries, &found, &places, place, table)?;
        places.push(full)?;
    }
    Ok(places)
}

/// The full types of all places of some unknowns. They share one table, so that they are as large together as the
/// types from which they come.
#[derive(Debug, Drop)]
pub struct FullTypes {
    /// The table in which the types stand.
    pub types: Types,
    /// For each place of the unknowns, the place of its full type in the table.
    pub places: List<usize>,
}
