use crate::locals::Locals;
use crate::reach::Reach;
use crate::uses::Use;
use hb_base::Memory;
use hb_mil::{Mil, Tail};
use std::alloc::Global;

/// For each local, by its number, the one that it comes from: a parameter that is a local of the block before is that local. A local
/// that comes from no other comes from itself. And what each of those is needed for.
#[derive(Drop)]
pub(crate) struct Origins {
    origins: Vec<usize>,
    uses: Vec<Use>,
    pub(crate) reach: Reach,
}

impl Origins {
    /// The origins of the locals of a program.
    pub(crate) fn of(alloc: Global, mil: &Mil, locals: &Locals) -> Result<Origins, Memory> {
        let mut origins = Origins::new(alloc, mil, locals)?;
        origins.begin(mil)?;
        for place in 0..mil.blocks.len() {
            if let Some(block) = origins.reach.get(place) {
                origins.follow(mil, locals, block)?;
            }
        }
        origins.reach_all(mil)?;
        Ok(origins)
    }

    /// Each local comes from itself, and is needed for nothing.
    fn new(alloc: Global, mil: &Mil, locals: &Locals) -> Result<Origins, Memory> {
        let mut origins = Vec::new(alloc);
        for number in 0..locals.len() {
            origins.push(number)?;
        }
        Ok(Origins {
            origins,
            uses: vec![in alloc; Use::Nothing; locals.len()]?,
            reach: Reach::new(alloc, mil.blocks.len())?,
        })
    }

    /// Reaches the blocks that are called, and the one with which the program begins.
    fn begin(&mut self, mil: &Mil) -> Result<(), Memory> {
        self.reach.take(mil.entry)?;
        let mut number = 0u32;
        for block in mil.blocks.as_slice() {
            if block.begins {
                self.reach.take(number)?;
            }
            number = number.saturating_add(1);
        }
        Ok(())
    }

    /// Reaches the blocks that none leads to.
    fn reach_all(&mut self, mil: &Mil) -> Result<(), Memory> {
        let mut number = 0u32;
        for _block in mil.blocks.as_slice() {
            self.reach.take(number)?;
            number = number.saturating_add(1);
        }
        Ok(())
    }

    /// Reaches the blocks to which a block leads on its own words.
    fn follow(&mut self, mil: &Mil, locals: &Locals, number: u32) -> Result<(), Memory> {
        let tail = match mil.blocks.as_slice().get(number as usize) {
            Some(block) => &block.tail,
            None => return Ok(()),
        };
        match tail {
            Tail::Switch(_, targets) => {
                for target in targets.as_slice() {
                    self.lead(locals, number, *target, locals.count(number))?;
                }
                Ok(())
            }
            Tail::Goto(target, kept, _) => self.lead(locals, number, *target, *kept as usize),
            _ => Ok(()),
        }
    }

    /// So many first locals of a block are those of another block.
    fn lead(&mut self, locals: &Locals, from: u32, to: u32, kept: usize) -> Result<(), Memory> {
        let is_new = self.reach.take(to)?;
        let (first, target) = (locals.first(from), locals.first(to));
        for place in 0..kept.min(locals.count(from)).min(locals.count(to)) {
            let number = first.saturating_add(place);
            self.join(is_new, number, target.saturating_add(place));
        }
        Ok(())
    }

    /// A local is a parameter of a block that is reached for the first time, or again: there both have their places, and these agree
    /// where the two are needed.
    fn join(&mut self, is_new: bool, number: usize, parameter: usize) {
        let origin = self.origin(number);
        if is_new {
            if let Some(there) = self.origins.get_mut(parameter) {
                *there = origin;
            }
            return;
        }
        if self.origin(parameter) != origin {
            self.put_use(number, Use::Kept);
            self.put_use(parameter, Use::Kept);
        }
    }

    /// The number of the local from which a local comes.
    pub(crate) fn origin(&self, number: usize) -> usize {
        match self.origins.get(number) {
            Some(origin) => *origin,
            None => number,
        }
    }

    /// What a local is needed for.
    pub(crate) fn use_of(&self, number: usize) -> Use {
        match self.uses.get(self.origin(number)) {
            Some(use_of) => *use_of,
            None => Use::Nothing,
        }
    }

    /// A local is needed for this.
    pub(crate) fn put_use(&mut self, number: usize, needed: Use) {
        let origin = self.origin(number);
        if let Some(use_of) = self.uses.get_mut(origin) {
            if *use_of != Use::Kept {
                *use_of = needed;
            }
        }
    }
}
