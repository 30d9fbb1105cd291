//! The tokens of a source: what the reading of bytes gives, what layout takes and gives, and what the grammar is over.
#![tactic(auto)]

mod token;
mod word;

pub use token::{Token, TokenKind, Tokens};
pub use word::Word;
