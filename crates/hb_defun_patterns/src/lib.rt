//! How patterns become steps and switches of a block program.
#![tactic(auto)]

mod flow;
mod matching;

pub use flow::Flow;
pub use matching::{Miss, can_fail};
