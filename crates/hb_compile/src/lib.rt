//! From a source of the second form to its image: lowering, selection and assembling in a row.
#![tactic(auto)]

mod compiling;
#[cfg(test)]
mod tests;

pub use compiling::compile;
