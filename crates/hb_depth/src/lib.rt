//! Finds the first form of a program that is nested too deep, on the flat list of the program's nodes. Nothing recurses
//! on nesting, and the time is linear in the nodes.
#![tactic(auto)]

mod chain;
mod first;
mod mark;
mod marker;
mod shape;
mod shapes;
#[cfg(test)]
mod tests;
mod walk;

pub use first::first_too_deep;
