//! Types of which none stands twice, so that two of them are the same where their places are; unknowns among them that
//! stand for others; how types are taken apart, and what a pattern with variables takes from them.
#![tactic(auto)]

mod equations;
mod matching;
mod pairs;
mod shape;
#[cfg(test)]
mod tests;
mod unique;

pub use equations::{Paired, take_equations, unknowns_of};
pub use matching::{Matched, match_types};
pub use pairs::may_agree;
pub use shape::{Shape, form_at, shape_of};
pub use unique::UniqueTypes;
