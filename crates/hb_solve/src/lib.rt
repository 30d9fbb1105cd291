//! What the equations and predicates of a definition force, and which of its predicates follow.
#![tactic(auto)]

mod forcing;
mod renewed;
mod round;
mod solver;

pub use solver::{Settled, Solver};
