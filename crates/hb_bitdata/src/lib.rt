//! Bit layouts of bitdata types: which bits of a pattern each field has, and which patterns are of which constructor.
#![tactic(auto)]

mod con;
mod fields;
mod form;
mod junk;
mod laying;
mod layout;
mod place;
mod widths;

pub use con::ConLayout;
pub use form::{BitForm, ConForm, PartForm};
pub use layout::BitLayout;
pub use place::FieldPlace;

#[cfg(test)]
mod tests;
