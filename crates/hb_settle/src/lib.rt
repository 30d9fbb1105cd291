//! A program as later passes read it: operators are grouped, pairs are applications, rows of one name are one definition,
//! and nodes are numbered.
#![tactic(auto)]

mod copies;
mod fixities;
mod numbering;
mod order;
mod rows;
mod runs;
mod settler;
mod settling;
#[cfg(test)]
mod tests;

pub use order::{earlier, is_earlier};
pub use settling::{Settled, settle};
