use hb_base::{List, Memory};
use hb_frames::{Block, Home};
use hb_local_places::words_of;
use hb_unbox_steps::{Spot, push_step, push_tail};
use std::alloc::Global;

/// What a block becomes: one block, on the words of its locals.
pub(crate) fn block_of(alloc: Global, spot: Spot, home: Home) -> Result<Block, Memory> {
    let entry = entry_of(alloc, spot)?;
    let mut steps = List::of(Vec::new(alloc));
    let mut local = params_of(spot);
    for step in spot.block.steps.as_slice() {
        push_step(alloc, &mut steps, spot, step, local)?;
        local = local.saturating_add(1);
    }
    let tail = push_tail(alloc, &mut steps, spot, &spot.block.tail)?;
    Ok(Block {
        home,
        entry,
        steps,
        tail,
    })
}

/// How many parameters a block has.
fn params_of(spot: Spot) -> u32 {
    match u32::try_from(spot.block.params.len()) {
        Ok(params) => params,
        Err(_) => u32::MAX,
    }
}

/// The entry of a block that is called: where each argument word goes. Words of parameters that nothing needs go nowhere.
fn entry_of(alloc: Global, spot: Spot) -> Result<Option<List<Option<u32>>>, Memory> {
    if !spot.block.begins {
        return Ok(None);
    }
    let mut entry = Vec::new(alloc);
    let mut local = 0u32;
    for of in spot.block.params.as_slice() {
        let place = spot.site.places.get(spot.number, local);
        push_taken(&mut entry, place, words_of(&spot.site.mil.types, *of))?;
        local = local.saturating_add(1);
    }
    Ok(Some(List::of(entry)))
}

/// Puts where so many words of a parameter go.
fn push_taken(entry: &mut Vec<Option<u32>>, place: Option<u32>, words: u32) -> Result<(), Memory> {
    for word in 0..words {
        match place {
            Some(first) => entry.push(Some(first.saturating_add(word)))?,
            None => entry.push(None)?,
        }
    }
    Ok(())
}
