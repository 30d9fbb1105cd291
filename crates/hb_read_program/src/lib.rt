//! The reader of programs: the grammar of declarations as a table, and the machine that runs it.
#![tactic(auto)]

mod begins;
mod class;
mod forms;
mod frame;
mod heads;
mod leaf;
mod line;
mod productions;
mod program;
mod run;
mod side;
mod symbol;
#[cfg(test)]
mod tests;
mod words;
mod worths;

pub use program::ProgramReader;
pub use side::{Heading, Side, Spot};
pub use symbol::{Count, Form, Head, Item, Kind, Leaf, Production, Put, Symbol, Things};
