//! The world outside as two traits: a shelf of named files and a sink of bytes. Each has a fake in memory, whose
//! contracts say all that it does, and the real thing, which tells no content.
#![tactic(auto)]

mod dir_shelf;
mod mem_shelf;
mod mem_sink;
mod shelf;
mod sink;
mod std_sink;
#[cfg(test)]
mod tests;
mod transfer;

pub use dir_shelf::DirShelf;
pub use mem_shelf::MemShelf;
pub use mem_sink::MemSink;
pub use shelf::{Shelf, ShelfError};
pub use sink::{Failed, Sink};
pub use std_sink::StdSink;
