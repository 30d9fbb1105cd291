//! Block programs: blocks of steps on typed values, with closures as labels and what these have captured.
#![tactic(auto)]

mod form;

pub use form::{Atom, Block, Mil, Operation, Step, Tail};
