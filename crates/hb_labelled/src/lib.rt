//! Programs for the machine with labels: instructions, labels, and jumps to labels.
#![tactic(auto)]

mod part;

pub use part::{Labelled, Part};
