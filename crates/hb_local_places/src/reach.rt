use hb_base::Memory;
use std::alloc::Global;

/// The blocks that were reached so far, in this order.
#[derive(Drop)]
pub(crate) struct Reach {
    order: Vec<u32>,
    reached: Vec<bool>,
}

impl Reach {
    /// None of so many blocks.
    pub(crate) fn new(alloc: Global, blocks: usize) -> Result<Reach, Memory> {
        Ok(Reach {
            order: Vec::new(alloc),
            reached: vec![in alloc; false; blocks]?,
        })
    }

    /// Reaches a block, and answers whether it was not reached before.
    pub(crate) fn take(&mut self, block: u32) -> Result<bool, Memory> {
        match self.reached.get_mut(block as usize) {
            Some(reached) => {
                if *reached {
                    return Ok(false);
                }
                *reached = true;
            }
            None => return Ok(false),
        }
        self.order.push(block)?;
        Ok(true)
    }

    /// The block that was reached at this place of the order.
    pub(crate) fn get(&self, place: usize) -> Option<u32> {
        match self.order.get(place) {
            Some(block) => Some(*block),
            None => None,
        }
    }
}
