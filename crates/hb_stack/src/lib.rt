//! A stack, as readers of tokens keep their frames on it.
#![tactic(auto)]

mod stack;
#[cfg(test)]
mod tests;

pub use stack::Stack;
