//! Directed graphs: which nodes lead back to themselves, and an order in which each node stands behind those that it leads to.
#![tactic(auto)]

mod graph;
mod search;

pub use graph::Graph;
pub use search::{Order, ordered};

#[cfg(test)]
mod tests;
