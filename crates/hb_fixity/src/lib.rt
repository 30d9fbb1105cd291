//! How the operators of a run group: each binds with the fixity that its name has.
#![tactic(auto)]

mod fixity;
mod grouping;
#[cfg(test)]
mod tests;

pub use fixity::{Fixity, Operator};
pub use grouping::{Grouped, group};
