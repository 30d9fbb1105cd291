//! The sample source of a number: a chain of so many functions, each of which calls the one before it.
#![tactic(auto)]

mod chain;
mod pieces;

pub use chain::sample;

#[cfg(test)]
mod tests;
