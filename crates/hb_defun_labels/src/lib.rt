//! The blocks of a block program that belong to no body: those of labels, and those with which the program begins.
#![tactic(auto)]

mod classes;
mod labels;
mod starting;

pub use classes::copied_classes;
pub use labels::label_blocks;
pub use starting::start_blocks;
