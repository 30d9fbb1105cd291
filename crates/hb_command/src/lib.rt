//! The words of the command line, read as one of the four commands.
#![tactic(auto)]

mod command;
mod number;
mod reading;
mod rest;
#[cfg(test)]
mod tests;

pub use command::{Command, read_command};
