use crate::blocks::block_of;
use crate::classes::dispatches_of;
use crate::dispatch::push_dispatch;
use hb_base::{List, Memory};
use hb_frames::{Block, Frames, Home};
use hb_local_places::{homes_of, place_locals};
use hb_mil::Mil;
use hb_unbox_steps::{Site, Spot};
use std::alloc::Global;

/// The flat program with frames that a block program becomes, where its areas and its ports, in text order, have these addresses and
/// its stack so many bytes. The blocks keep their numbers. After them the dispatch of each class follows. `Memory` where memory runs
/// out.
pub fn unbox(
    alloc: Global,
    mil: &Mil,
    areas: &[u32],
    ports: &[u32],
    stack: u32,
) -> Result<Frames, Memory> {
    let homes = homes_of(alloc, mil)?;
    let places = place_locals(alloc, mil, &homes)?;
    let dispatches = dispatches_of(alloc, mil)?;
    let site = Site {
        mil,
        areas,
        ports,
        homes: &homes,
        places: &places,
        dispatches: &dispatches,
    };
    Ok(Frames {
        blocks: blocks_of(alloc, site)?,
        entry: mil.entry,
        stack,
    })
}

/// The blocks of the flat program.
fn blocks_of(alloc: Global, site: Site) -> Result<List<Block>, Memory> {
    let mut blocks = Vec::new(alloc);
    push_blocks(alloc, &mut blocks, site)?;
    push_dispatches(alloc, &mut blocks, site)?;
    Ok(List::of(blocks))
}

/// Puts what the blocks of the program become at the end.
fn push_blocks(alloc: Global, blocks: &mut Vec<Block>, site: Site) -> Result<(), Memory> {
    let mut number = 0u32;
    for (block, home) in site.mil.blocks.as_slice().iter().zip(site.homes.as_slice()) {
        let spot = Spot {
            site,
            block,
            number,
        };
        blocks.push(block_of(alloc, spot, *home)?)?;
        number = number.saturating_add(1);
    }
    Ok(())
}

/// Puts the dispatch of each class at the end.
fn push_dispatches(alloc: Global, blocks: &mut Vec<Block>, site: Site) -> Result<(), Memory> {
    let mut number = 0usize;
    for class in site.mil.classes.as_slice() {
        let first = match site.dispatches.get(number) {
            Some(block) => block.saturating_add(1),
            None => 0,
        };
        push_dispatch(alloc, blocks, site.mil, class, number, first)?;
        number = number.saturating_add(1);
    }
    Ok(())
}
