use hb_base::{Memory, Name};
use hb_resolved::Target;
use std::alloc::Global;

/// What names mean, by their numbers.
#[derive(Drop)]
pub(crate) struct Meanings {
    targets: Vec<Target>,
}

impl Meanings {
    /// So many names that mean nothing.
    pub(crate) fn new(alloc: Global, names: u32) -> Result<Meanings, Memory> {
        let targets = vec![in alloc; Target::None; names as usize]?;
        Ok(Meanings { targets })
    }

    /// What the name means.
    pub(crate) fn of(&self, name: Name) -> Target {
        match self.targets.get(name.0 as usize) {
            Some(target) => *target,
            None => Target::None,
        }
    }

    /// The name means something.
    pub(crate) fn is_known(&self, name: Name) -> bool {
        !matches!(self.of(name), Target::None)
    }

    /// From now on the name means this.
    pub(crate) fn put(&mut self, name: Name, target: Target) {
        if let Some(slot) = self.targets.get_mut(name.0 as usize) {
            *slot = target;
        }
    }

    /// A name that means nothing yet means this from now on.
    pub(crate) fn declare(&mut self, name: Name, target: Target) {
        if !self.is_known(name) {
            self.put(name, target);
        }
    }
}
