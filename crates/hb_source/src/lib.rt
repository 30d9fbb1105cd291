//! A source behind the prelude, as a program whose names are resolved.
#![tactic(auto)]

mod nowhere;
mod primitives;
mod reading;

pub use primitives::PRIMITIVES;
pub use reading::{Source, read_source};
