//! What a step or a tail of a block program becomes in the flat program with frames.
#![tactic(auto)]

mod operands;
mod site;
mod steps;
mod tails;
mod values;

pub use site::{Site, Spot};
pub use steps::push_step;
pub use tails::push_tail;
