//! Kinds of types: each whole type of a program has the kind that its place asks for, and no declared type contains itself.
#![tactic(auto)]

mod containing;
mod declared;
mod equations;
mod finite;
mod graph;
mod solving;
mod table;
#[cfg(test)]
mod tests;
mod wholes;

pub use finite::finite_data;
pub use solving::kinds;
pub use table::KindTable;
