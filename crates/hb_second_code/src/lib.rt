//! From a source of the second form to flat code, which does what the source says.
#![tactic(auto)]

mod lowering;
#[cfg(test)]
mod tests;

pub use lowering::lower;
