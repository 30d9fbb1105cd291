ghost use Rattle.std.specs.Prelude.{◌≡◌};
ghost use Rattle.hb_read_expressions.specs.Sorts.{sort_of, name_sort, word_sort, mark_sort};

use hb_base::{Name, fixed};
use hb_tokens::{TokenKind, Word};

/// What a token is to an expression.
#[derive(Clone, Copy, Debug, PartialEq, Eq)]
pub enum Sort {
    /// A name that begins with a lower-case letter or `_`, and is not `_`.
    Variable(Name),
    Number(u64),
    Bits(u32, u128),
    Constructor(Name),
    /// An operator that is not reserved.
    Operator(Name),
    /// The dot of a selection.
    Dot,
    /// `(`
    Open,
    /// `)`
    Close,
    /// `,`
    Comma,
    /// `;`
    Semicolon,
    /// `[`
    OpenSquare,
    /// `]`
    CloseSquare,
    /// `` ` ``
    Backquote,
    /// `{`
    OpenBrace,
    /// `}`
    CloseBrace,
    /// `=`
    Equals,
    /// `|`
    Bar,
    /// `\`
    Backslash,
    /// `->`
    RightArrow,
    /// `<-`
    LeftArrow,
    Let,
    In,
    If,
    Then,
    Else,
    Case,
    Of,
    Do,
    Where,
    /// No expression has such a token outside its patterns.
    Other,
}

fn name_sort(name: Name) -> Sort
    ensures { result ≡ name_sort name }
{
    if name.0 == fixed::WILDCARD.0 {
        Sort::Other
    } else {
        Sort::Variable(name)
    }
}

fn word_sort(word: Word) -> Sort
    ensures { result ≡ word_sort word }
{
    match word {
        Word::Equals => Sort::Equals,
        Word::Bar => Sort::Bar,
        Word::Backslash => Sort::Backslash,
        Word::RightArrow => Sort::RightArrow,
        Word::LeftArrow => Sort::LeftArrow,
        Word::Let => Sort::Let,
        Word::In => Sort::In,
        Word::If => Sort::If,
        Word::Then => Sort::Then,
        Word::Else => Sort::Else,
        Word::Case => Sort::Case,
        Word::Of => Sort::Of,
        Word::Do => Sort::Do,
        Word::Where => Sort::Where,
        _ => Sort::Other,
    }
}

fn mark_sort(byte: u8) -> Sort
    ensures { result ≡ mark_sort byte }
{
    match byte {
        b'(' => Sort::Open,
        b')' => Sort::Close,
        b',' => Sort::Comma,
        b';' => Sort::Semicolon,
        b'[' => Sort::OpenSquare,
        b']' => Sort::CloseSquare,
        b'`' => Sort::Backquote,
        b'{' => Sort::OpenBrace,
        b'}' => Sort::CloseBrace,
        _ => Sort::Other,
    }
}

/// What a token of this kind is to an expression. Takes no memory.
pub fn sort_of(kind: TokenKind) -> Sort
    ensures { result ≡ sort_of kind }
{
    match kind {
        TokenKind::VarId(name) => name_sort(name),
        TokenKind::ConId(name) => Sort::Constructor(name),
        TokenKind::Op(name) => Sort::Operator(name),
        TokenKind::Word(word) => word_sort(word),
        TokenKind::Number(number) => Sort::Number(number),
        TokenKind::Bits(width, number) => Sort::Bits(width, number),
        TokenKind::Mark(byte) => mark_sort(byte),
        TokenKind::Dot => Sort::Dot,
        TokenKind::End => Sort::Other,
    }
}
