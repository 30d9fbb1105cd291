//! Tables of types in which no type stands twice.
#![tactic(auto)]

mod shared;
#[cfg(test)]
mod tests;

pub use shared::SharedTypes;
