//! Builds the tree of a whole program from its nodes, which stand in one flat list, parts before the whole. Each node takes
//! its parts off the stacks and puts the whole on, so nothing recurses on nesting, and the time is linear in the nodes.
#![tactic(auto)]

mod builder;
mod heads;
mod initials;
mod members;
mod parts;
mod program;
#[cfg(test)]
mod tests;
mod wholes;

pub use builder::DeclBuilder;
pub use parts::{Heads, Members, Starts};
pub use program::build_program;
