//! From programs with labels to words: each label has an address, and each jump to a label is in its far form.
#![tactic(auto)]

mod addresses;
mod coding;
mod distances;
mod linking;

pub use linking::link;
