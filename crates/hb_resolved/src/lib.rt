//! A program whose names are resolved, and what it keeps.
#![tactic(auto)]

mod resolved;

pub use resolved::{Binder, Resolved, Target, Use};
