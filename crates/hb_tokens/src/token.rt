use crate::word::Word;
use hb_base::{List, Name, Place};

/// What a token is.
#[derive(Clone, Copy, Debug, PartialEq, Eq)]
pub enum TokenKind {
    /// A name that begins with a lower-case letter or `_`; `_` alone is among them.
    VarId(Name),
    /// A name that begins with an upper-case letter.
    ConId(Name),
    /// An operator that is not reserved.
    Op(Name),
    /// A reserved word or operator, or a word that is left out.
    Word(Word),
    /// A number.
    Number(u64),
    /// A bit literal: its width in bits, at most 128, and its number.
    Bits(u32, u128),
    /// The byte of a bracket, a brace, a comma, a semicolon or a backquote.
    Mark(u8),
    /// The dot of a selection.
    Dot,
    /// The end of the text.
    End,
}

/// A token and the place of its first byte.
#[derive(Clone, Copy, Debug, PartialEq, Eq)]
pub struct Token {
    pub place: Place,
    pub kind: TokenKind,
}

/// The tokens of a source in their order. The last one is the end.
#[derive(Debug, Drop)]
pub struct Tokens {
    pub list: List<Token>,
}
