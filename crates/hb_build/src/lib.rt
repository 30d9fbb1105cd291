//! Builds the tree of a source from its nodes, which stand in one flat list, parts before the whole. Each node takes its
//! parts off a stack and puts the whole on it, so nothing recurses on nesting, and the time is linear in the nodes.
#![tactic(auto)]

mod pattern_builder;
mod patterns;
#[cfg(test)]
mod tests;
mod type_builder;
mod types;

pub use pattern_builder::{Part, PatBuilder};
pub use patterns::{build_pat, build_row};
pub use type_builder::TypeBuilder;
pub use types::{Qualified, build_context, build_qualified, build_type};
