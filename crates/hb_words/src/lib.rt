//! The words of the command line, read as a command.
#![tactic(auto)]

#[cfg(test)]
mod tests;
mod words;

pub use words::{Command, read_words};
