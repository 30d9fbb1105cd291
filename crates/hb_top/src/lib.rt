//! The top call: the words of a command line are read and done, over any shelf of files and any sink of text.
#![tactic(auto)]

mod command;
mod execute;
mod failure;
mod finding;
mod judging;
mod prepare;
mod report;
mod starting;

pub use command::habit;
