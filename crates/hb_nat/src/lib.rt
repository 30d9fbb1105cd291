//! Facts about natural numbers with open arguments: which of them can hold, and what they force.
#![tactic(auto)]

mod arith;
mod fact;
mod improver;

pub use fact::{Improvement, NatArg, NatFact};
pub use improver::{check, improve};

#[cfg(test)]
mod tests;
