use hb_tokens::Word;

/// What a token is, the text of its name apart.
#[derive(Clone, Copy, Debug, PartialEq, Eq)]
pub enum Shape {
    VarId,
    ConId,
    Op,
    Word(Word),
    Number(u64),
    Bits(u32, u128),
    Mark(u8),
    Dot,
    End,
}

/// What is wrong where no token can be read.
#[derive(Clone, Copy, Debug, PartialEq, Eq)]
pub enum Wrong {
    /// A literal out of form or range.
    Literal,
    /// A comment that is not closed.
    Comment,
    /// `"`, or `'` outside a name.
    Quote,
}

/// What stands at a place, with the number of its bytes.
#[derive(Clone, Copy, Debug, PartialEq, Eq)]
pub enum Piece {
    /// White space, or a comment to the end of the line.
    Skip(usize),
    /// A comment that nests begins.
    Comment,
    Token(Shape, usize),
    Wrong(Wrong),
}
