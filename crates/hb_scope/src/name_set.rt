use hb_base::{Memory, Name};
use std::alloc::Global;

/// A set of names. A name is in it where its stamp is the one of now, so it is emptied in one step.
#[derive(Drop)]
pub(crate) struct NameSet {
    stamps: Vec<u64>,
    now: u64,
}

impl NameSet {
    /// A set of none of so many names.
    pub(crate) fn new(alloc: Global, names: u32) -> Result<NameSet, Memory> {
        let stamps = vec![in alloc; 0; names as usize]?;
        Ok(NameSet { stamps, now: 1 })
    }

    /// Takes all names out.
    pub(crate) fn clear(&mut self) {
        self.now = self.now.wrapping_add(1);
    }

    /// The name is in it.
    pub(crate) fn has(&self, name: Name) -> bool {
        match self.stamps.get(name.0 as usize) {
            Some(stamp) => *stamp == self.now,
            None => false,
        }
    }

    /// Puts a name in, and answers whether it was in before.
    pub(crate) fn put(&mut self, name: Name) -> bool {
        let was_in = self.has(name);
        if let Some(stamp) = self.stamps.get_mut(name.0 as usize) {
            *stamp = self.now;
        }
        was_in
    }
}
