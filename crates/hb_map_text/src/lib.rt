//! The lines of a map: where areas, fields, ports and the stack lie, how bitdata types are laid out, and the room that
//! each body takes.
#![tactic(auto)]

mod line;
mod pieces;

pub use line::{MapLine, put_line};

#[cfg(test)]
mod tests;
