//! Readers of patterns: one token at a time, with no recursion. What is read comes out as the nodes of the pattern, in
//! their order: parts before the whole.
#![tactic(auto)]

mod frame;
mod head;
mod node;
mod reader;
mod sort;
mod start;
#[cfg(test)]
mod tests;

pub use frame::Due;
pub use node::PatNode;
pub use reader::PatReader;
