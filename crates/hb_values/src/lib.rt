//! The types of values by how these are laid out in words, and what functions and actions are made from.
#![tactic(auto)]

mod class;
mod form;

pub use class::{Class, ClassMap, Label, Member};
pub use form::{ValueForm, ValueTypes};
