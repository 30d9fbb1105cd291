use crate::homes::{SHARED_LOCALS, spare_word};
use crate::locals::Locals;
use crate::origins::Origins;
use crate::uses::{Use, note_uses};
use hb_base::{List, Memory};
use hb_frames::Home;
use hb_mil::{Block, Mil};
use std::alloc::Global;

/// For each local of each block the first of its words in the frame. Locals of a block stand one after another. One that nothing
/// needs has no place. One that only the tail of its own block needs, to go on by it, stands in a word apart.
#[derive(Debug, Drop)]
pub struct Places {
    /// The number of the first local of each block among all locals, and at the end how many locals there are.
    firsts: List<usize>,
    /// The places of all locals.
    words: List<Option<u32>>,
}

impl Places {
    /// The place of a local of a block, if it has one. Takes no memory.
    pub fn get(&self, block: u32, local: u32) -> Option<u32> {
        let first = match self.firsts.as_slice().get(block as usize) {
            Some(first) => *first,
            None => return None,
        };
        let number = first.saturating_add(local as usize);
        match self.words.as_slice().get(number) {
            Some(place) => *place,
            None => None,
        }
    }
}

/// Places the locals of all blocks, whose homes these are. `Memory` where memory runs out.
pub fn place_locals(alloc: Global, mil: &Mil, homes: &List<Home>) -> Result<Places, Memory> {
    let locals = Locals::of(alloc, mil)?;
    let mut origins = Origins::of(alloc, mil, &locals)?;
    note_all_uses(&mut origins, &locals, mil, homes);
    let mut words = vec![in alloc; None; locals.len()]?;
    for place in 0..mil.blocks.len() {
        if let Some(number) = origins.reach.get(place) {
            place_block(&mut words, mil, homes, &locals, &origins, number);
        }
    }
    Ok(Places {
        firsts: List::of(locals.into_firsts()),
        words: List::of(words),
    })
}

/// The home of a block.
fn home_at(homes: &List<Home>, number: u32) -> Home {
    match homes.as_slice().get(number as usize) {
        Some(home) => *home,
        None => Home::Shared,
    }
}

/// Notes what every block needs of its locals.
fn note_all_uses(origins: &mut Origins, locals: &Locals, mil: &Mil, homes: &List<Home>) {
    let mut number = 0u32;
    for block in mil.blocks.as_slice() {
        note_uses(origins, locals, locals.first(number), block);
        if is_shared_entry(block, home_at(homes, number)) {
            keep_parameters(origins, locals.first(number), block);
        }
        number = number.saturating_add(1);
    }
}

/// The parameters of the block stay where arguments are passed.
fn is_shared_entry(block: &Block, home: Home) -> bool {
    block.begins && home == Home::Shared
}

/// All parameters of a block are kept.
fn keep_parameters(origins: &mut Origins, first: usize, block: &Block) {
    for place in 0..block.params.len() {
        origins.put_use(first.saturating_add(place), Use::Kept);
    }
}

/// Places the locals of a block. Those that come from other locals stand where these do, whose places are known.
fn place_block(
    words: &mut [Option<u32>],
    mil: &Mil,
    homes: &List<Home>,
    locals: &Locals,
    origins: &Origins,
    number: u32,
) {
    let block = match mil.blocks.as_slice().get(number as usize) {
        Some(block) => block,
        None => return,
    };
    let home = home_at(homes, number);
    let apart = spare_word(home).saturating_add(2);
    let mut at = 0;
    for place in 0..locals.count(number) {
        if place == block.params.len() && is_shared_entry(block, home) {
            at = SHARED_LOCALS.max(at);
        }
        let local = locals.first(number).saturating_add(place);
        at = place_local(words, locals, origins, local, (at, apart));
    }
}

/// Places a local, where it comes from no other at the next word or apart, and answers the next word after it.
fn place_local(
    words: &mut [Option<u32>],
    locals: &Locals,
    origins: &Origins,
    number: usize,
    (next, apart): (u32, u32),
) -> u32 {
    let origin = origins.origin(number);
    let needed = origins.use_of(number);
    let place = if origin == number {
        place_of(needed, next, apart)
    } else {
        place_at(words, origin)
    };
    if let Some(slot) = words.get_mut(number) {
        *slot = place;
    }
    match (needed, place) {
        (Use::Kept, Some(first)) => first.saturating_add(locals.words(number)),
        _ => next,
    }
}

/// Where a local stands that comes from no other.
fn place_of(needed: Use, next: u32, apart: u32) -> Option<u32> {
    match needed {
        Use::Nothing => None,
        Use::Tested => Some(apart),
        Use::Kept => Some(next),
    }
}

/// The place of the local of a number.
fn place_at(words: &[Option<u32>], number: usize) -> Option<u32> {
    match words.get(number) {
        Some(place) => *place,
        None => None,
    }
}
