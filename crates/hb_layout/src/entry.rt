/// What opens a block, as far as layout tells it apart.
#[derive(Clone, Copy, Debug, PartialEq, Eq)]
pub enum Opener {
    /// `let`: an `in` may be due after the block.
    Let,
    /// `where`, `of`, `do`, or the start of the text.
    Other,
}

/// What is open at a place.
#[derive(Clone, Copy, Debug, PartialEq, Eq)]
pub enum Entry {
    /// A bracket, or a brace that opens no block, by its byte.
    Bracket(u8),
    /// A block whose braces are written.
    Explicit(Opener),
    /// A block whose braces are inserted, with its column.
    Implicit(u32, Opener),
}
