//! From flat programs with frames to instructions and labels: each step and each tail becomes a segment of its own.
#![tactic(auto)]

mod blocks;
mod emitting;
mod instructions;
mod places;
mod registers;
mod routines;
mod splitting;
mod steps;
mod tails;
mod words;

pub use emitting::emit;
