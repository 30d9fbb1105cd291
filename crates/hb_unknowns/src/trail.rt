ghost use Rattle.std.specs.Prelude.{◌≡◌, ◌<◌, length, slice_set, IfOk, OnOk, OnErr};
ghost use Rattle.hb_unknowns.specs.Trail.{restored, written_places, AreInside, IsTracked};

use crate::node::{Entry, entry_at};
use hb_base::Memory;
use std::alloc::Global;

/// What stood at a place before it was written.
#[derive(Clone, Copy, Debug)]
pub struct Change {
    pub place: usize,
    pub entry: Entry,
}

/// Writes one entry, and notes what stood there.
pub fn write(
    entries: &mut Vec<Entry>,
    trail: &mut Vec<Change>,
    place: usize,
    entry: Entry,
) -> Result<(), Memory>
    requires place { place < length entries.old.items }
    requires trail { AreInside (length entries.old.items) trail.old.items }
    ensures tracked { IsTracked entries.old.items trail.old.items entries.new.items trail.new.items }
    ensures ok { OnOk result (entries.new.items ≡ slice_set entries.old.items place entry) }
    ensures err { OnErr result (entries.new.items ≡ entries.old.items) }
{
    let before = entry_at(entries, place);
    trail.push(Change {
        place,
        entry: before,
    })?;
    entries[place] = entry;
    Ok(())
}

/// Takes back all changes, the last one first.
pub fn undo(entries: &mut Vec<Entry>, trail: &mut Vec<Change>)
    requires { AreInside (length entries.old.items) trail.old.items }
    ensures { entries.new.items ≡ restored trail.old.items entries.old.items }
{
    while let Some(change) = trail.pop() {
        entries[change.place] = change.entry;
    }
}

/// The places that were written.
pub fn places(alloc: Global, trail: &[Change]) -> Result<Vec<usize>, Memory>
    ensures { IfOk result (λ places. places.items ≡ written_places trail.now) }
{
    let mut places = Vec::new(alloc);
    for change in trail {
        places.push(change.place)?;
    }
    Ok(places)
}
