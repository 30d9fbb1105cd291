//! The tokens that the bytes of a source spell, and the first place where they spell none.
//!
//! The rules are in specs/: `Bytes` has the classes of bytes and the places, `Literals` the numbers and bit literals,
//! `Words` the reserved words, `Pieces` what begins at a place as the longest run there, `Tokens` the tokens of a whole
//! source and its first fault, and `Numbering` how names become numbers. `lex` is proved to answer the tokens exactly
//! where the rules give some, and else the first fault, but for want of memory.
#![tactic(auto)]

mod bytes;
mod comment;
mod lexer;
mod literal;
mod piece;
mod scan;
mod source;
#[cfg(test)]
mod tests;
mod word;

pub use source::{lex, text_end};
