//! Where the locals of block programs stand among the words of frames.
#![tactic(auto)]

mod homes;
mod locals;
mod origins;
mod places;
mod reach;
mod uses;

pub use homes::{SHARED_LOCALS, homes_of, spare_word};
pub use locals::words_of;
pub use places::{Places, place_locals};
