use hb_base::{List, Memory};
use hb_frames::Home;
use hb_mil::{Block, Mil};
use std::alloc::Global;

/// The first word for what the steps of a `Shared` block set: the arguments stand below.
pub const SHARED_LOCALS: u32 = 128;

/// The first of the three last words that no local has in a block of this home. In a frame they stand right below the word of the
/// return address.
pub fn spare_word(home: Home) -> u32 {
    match home {
        Home::Stack(room) => (room / 4).saturating_sub(4),
        Home::Shared => 212,
        Home::Start => 37,
    }
}

/// The home of each block: the frame of its body; and of a block of no body `Start` where the program begins with it, and else
/// `Shared`.
pub fn homes_of(alloc: Global, mil: &Mil) -> Result<List<Home>, Memory> {
    let mut homes = Vec::new(alloc);
    for block in mil.blocks.as_slice() {
        homes.push(home_of(mil, block))?;
    }
    for start in mil.starts.as_slice() {
        if let Some(home) = homes.get_mut(*start as usize) {
            *home = Home::Start;
        }
    }
    Ok(List::of(homes))
}

/// The home of a block with which no program begins.
fn home_of(mil: &Mil, block: &Block) -> Home {
    match block.body {
        Some(body) => Home::Stack(room_of(mil, body)),
        None => Home::Shared,
    }
}

/// The room of a body in bytes, at least that of a body without nodes.
fn room_of(mil: &Mil, body: u32) -> u32 {
    match mil.rooms.as_slice().get(body as usize) {
        Some(room) => *room,
        None => 16,
    }
}
