//! Equations between types with unknowns, taken in one after another: which finite types make them all true, and what
//! they force.
#![tactic(auto)]

mod error;
mod full;
mod graph;
mod node;
mod normal;
mod order;
mod put;
mod referred;
mod taking;
#[cfg(test)]
mod tests;
mod trail;
mod unknowns;

pub use error::EquateError;
pub use full::FullTypes;
pub use node::Pair;
pub use normal::NormalTypes;
pub use unknowns::Unknowns;
