//! The second form of a program: ports of eight bits, and a `main` that reads and writes them in a straight line. It is
//! found in the tree of a program exactly, with the place of the first declaration or statement that cannot stand.
#![tactic(auto)]

#[cfg(test)]
mod making;
mod reader;
mod reading;
mod shapes;
mod source;
mod spelling;
#[cfg(test)]
mod tests;

pub use reading::{FormError, read_source};
pub use source::{Argument, Atom, Operator, Source, Statement};
