//! Patterns of up to 64 bits, and cubes, which are the patterns with some bits fixed. Nothing here takes memory.
#![tactic(auto)]

mod cube;
mod pattern;
mod shift;

pub use cube::Cube;
pub use pattern::Pattern;

#[cfg(test)]
mod tests;
