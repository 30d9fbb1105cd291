//! What is done on words, as steps of flat programs: parts of words, cells of memory, and primitives.
#![tactic(auto)]

mod cells;
mod primitives;
mod push;
mod rule;
mod words;

pub use cells::{push_cell_at, push_read_cell, push_write_cell};
pub use primitives::push_primitive;
pub use push::{push_alu, push_load, push_set, push_store};
pub use words::{low_bits, low_word, push_cut, push_has, push_place};
