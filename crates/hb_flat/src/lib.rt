//! Flat programs: blocks of steps on the words of a frame. A flat program knows neither registers nor instructions.
#![tactic(auto)]

mod form;

pub use form::{Flat, FlatBlock, FlatStep, FlatTail, Operand};
