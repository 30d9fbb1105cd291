//! From block programs to flat programs with frames: each value becomes words, and each closure class gets a dispatch.
#![tactic(auto)]

mod blocks;
mod classes;
mod dispatch;
mod unboxing;

pub use unboxing::unbox;
