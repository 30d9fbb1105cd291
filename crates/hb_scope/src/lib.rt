//! What each name of a program means: each use gets its target, or the first broken rule of names is told.
#![tactic(auto)]

mod declared;
mod faults;
mod lone;
mod meanings;
mod methods;
mod name_set;
mod prelude;
mod resolving;
mod sorts;
mod type_names;
mod uses;

pub use prelude::PRELUDE;
pub use resolving::resolve;
