//! The parser: from laid-out tokens to the tree of a program.
#![tactic(auto)]

mod parsing;

pub use parsing::parse;
