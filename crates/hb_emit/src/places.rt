//! Where the words of frames, arguments and results stand.

use hb_frames::Home;

/// Where the region of arguments and results begins: 256 words, up to 40000000. The frames of the stack end there.
pub const REGION: u32 = 0x3FFF_FC00;

/// The arguments of a call, its results, and the words of a block that shares their place: from the first word on.
pub const SHARED_WORDS: u32 = 215;

/// The words of the blocks with which a program begins are the last ones.
pub const START_WORDS: u32 = 40;

/// The first of them. The word between keeps the return address of a block on the shared words.
const FIRST_START: u32 = 216;

/// Where a word stands: so many bytes above the address in x2, or at an address.
#[derive(Clone, Copy, Debug, PartialEq, Eq)]
pub enum Place {
    Frame(u32),
    At(u32),
}

/// The address of a word of the region. There is none past the last one.
fn region_word(word: u32) -> u32 {
    if word < 256 {
        REGION + 4 * word
    } else {
        REGION
    }
}

/// The place of a word of a frame. A number that the home does not have stands for its first word.
pub fn place_of(home: Home, word: u32) -> Place {
    match home {
        Home::Stack(room) => Place::Frame(frame_word(room, word)),
        Home::Shared => Place::At(passed_word(word)),
        Home::Start => Place::At(start_word(word)),
    }
}

/// The bytes below a word of a frame of so many bytes, in whose last word the return address stands.
fn frame_word(room: u32, word: u32) -> u32 {
    let last = room / 4;
    if last > 0 && word < last - 1 {
        4 * word
    } else {
        0
    }
}

fn passed_word(word: u32) -> u32 {
    if word < SHARED_WORDS {
        region_word(word)
    } else {
        REGION
    }
}

fn start_word(word: u32) -> u32 {
    if word < START_WORDS {
        region_word(FIRST_START + word)
    } else {
        region_word(FIRST_START)
    }
}

/// Where the argument or result of this number is handed over.
pub fn passed(number: u32) -> Place {
    Place::At(passed_word(number))
}

/// Where a block on the shared words keeps its return address.
pub fn shared_link() -> Place {
    Place::At(region_word(SHARED_WORDS))
}

/// The lowest address of a stack of so many bytes.
pub fn stack_end(stack: u32) -> u32 {
    REGION.saturating_sub(stack - stack % 4)
}
