//! Flat programs with calls: blocks of steps on the words of frames.
#![tactic(auto)]

mod form;

pub use form::{Block, Frames, Home, Operand, Step, Tail};
