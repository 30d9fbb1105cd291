//! From flat programs to instructions: each step becomes a fixed sequence, and the machine shows what the program shows.
#![tactic(auto)]

mod assembling;
mod parts;
mod selecting;
mod splitting;
#[cfg(test)]
mod tests;

pub use assembling::assemble;
pub use selecting::select;
