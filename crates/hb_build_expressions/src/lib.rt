//! Builds the tree of an expression from its nodes, which stand in one flat list, parts before the whole. Each node takes
//! its parts off the stacks and puts the whole on, so nothing recurses on nesting, and the time is linear in the nodes.
#![tactic(auto)]

mod builder;
mod expressions;
mod taking;
#[cfg(test)]
mod tests;

pub use builder::ExprBuilder;
pub use expressions::build_expr;
pub use taking::{pop_two, take_off};
