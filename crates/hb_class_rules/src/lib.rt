//! The rules that classes and instances keep, and the first of them that is broken.
#![tactic(auto)]

mod counting;
mod cycles;
mod faults;
mod overlap;
mod supers;

pub use faults::{ClassFault, ClassRule, first_class_fault};
