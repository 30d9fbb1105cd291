//! Which values of a match no row has: the least such value, and a limit on the states that the prefixes of all values
//! leave.
#![tactic(auto)]

mod chain;
mod cover;
mod letters;
mod live;
mod position;
mod search;
mod stepping;

pub use cover::{Covered, covers};
