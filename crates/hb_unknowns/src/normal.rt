ghost use Rattle.std.specs.Prelude.{◌≡◌, ℕ, length, IfOk};
ghost use Rattle.hb_types.specs.Finite.{Finite};
ghost use Rattle.hb_unknowns.specs.Graph.{Obeys, IsGraph};
ghost use Rattle.hb_unknowns.specs.Normal.{AreNodeTypes};

use crate::full::{find_all, found_at};
use crate::node::Entry;
use crate::order::sorted;
use hb_base::{List, Memory};
use hb_types::Types;
use std::alloc::Global;

/// Puts the types of all nodes at the end of a table, and answers their places there: nodes that are linked have one
/// place.
pub fn node_types(alloc: Global, entries: &[Entry], table: &mut Types) -> Result<Vec<usize>, Memory>
    requires graph { IsGraph entries.now }
    requires solution { (v : ℕ → Finite) × Obeys v entries.now }
    ensures { IfOk result (λ places. AreNodeTypes entries.now (length entries.now) table.new places.items) }
{
    let order = sorted(alloc, entries)?;
    let found = find_all(alloc, entries, &order, table)?;
    let mut places = Vec::new(alloc);
    for node in 0..entries.len() {
        let one = found_at(&found, node);
        places.push(one.place)?;
    }
    Ok(places)
}

/// The normal types of all places of some unknowns. They share one table, so that they are as large together as the
/// types from which they come.
#[derive(Debug, Drop)]
pub struct NormalTypes {
    /// The table in which the types stand.
    pub types: Types,
    /// For each place of the unknowns, the place of its normal type in the table.
    pub places: List<usize>,
}
