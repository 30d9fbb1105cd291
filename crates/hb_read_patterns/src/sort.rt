ghost use Rattle.std.specs.Prelude.{◌≡◌};
ghost use Rattle.hb_read_patterns.specs.Sorts.{sort_of, word_sort, mark_sort, name_sort, is_close, is_comma, is_open_square, is_close_square, is_bar, is_equals};

use hb_base::{Name, fixed};
use hb_tokens::{TokenKind, Word};

/// What a token is to a pattern.
#[derive(Clone, Copy, Debug, PartialEq, Eq)]
pub enum Sort {
    /// A name that begins with a lower-case letter or `_`, and is not `_`.
    Variable(Name),
    /// `_`
    Wildcard,
    Number(u64),
    Bits(u32, u128),
    Constructor(Name),
    /// `(`
    Open,
    /// `)`
    Close,
    /// `[`
    OpenSquare,
    /// `]`
    CloseSquare,
    /// `,`
    Comma,
    /// `|`
    Bar,
    /// `=`
    Equals,
    /// No pattern has such a token.
    Other,
}

fn name_sort(name: Name) -> Sort
    ensures { result ≡ name_sort name }
{
    if name.0 == fixed::WILDCARD.0 {
        Sort::Wildcard
    } else {
        Sort::Variable(name)
    }
}

fn word_sort(word: Word) -> Sort
    ensures { result ≡ word_sort word }
{
    match word {
        Word::Bar => Sort::Bar,
        Word::Equals => Sort::Equals,
        _ => Sort::Other,
    }
}

fn mark_sort(byte: u8) -> Sort
    ensures { result ≡ mark_sort byte }
{
    match byte {
        b'(' => Sort::Open,
        b')' => Sort::Close,
        b',' => Sort::Comma,
        b'[' => Sort::OpenSquare,
        b']' => Sort::CloseSquare,
        _ => Sort::Other,
    }
}

/// What a token of this kind is to a pattern. Takes no memory.
pub fn sort_of(kind: TokenKind) -> Sort
    ensures { result ≡ sort_of kind }
{
    match kind {
        TokenKind::VarId(name) => name_sort(name),
        TokenKind::ConId(name) => Sort::Constructor(name),
        TokenKind::Number(number) => Sort::Number(number),
        TokenKind::Bits(width, number) => Sort::Bits(width, number),
        TokenKind::Word(word) => word_sort(word),
        TokenKind::Mark(byte) => mark_sort(byte),
        TokenKind::Op(_) | TokenKind::Dot | TokenKind::End => Sort::Other,
    }
}

impl Sort {
    /// `)`. Takes no memory.
    pub fn is_close(self) -> bool
        ensures { result ≡ is_close self }
    {
        matches!(self, Sort::Close)
    }

    /// `,`. Takes no memory.
    pub fn is_comma(self) -> bool
        ensures { result ≡ is_comma self }
    {
        matches!(self, Sort::Comma)
    }

    /// `[`. Takes no memory.
    pub fn is_open_square(self) -> bool
        ensures { result ≡ is_open_square self }
    {
        matches!(self, Sort::OpenSquare)
    }

    /// `]`. Takes no memory.
    pub fn is_close_square(self) -> bool
        ensures { result ≡ is_close_square self }
    {
        matches!(self, Sort::CloseSquare)
    }

    /// `|`. Takes no memory.
    pub fn is_bar(self) -> bool
        ensures { result ≡ is_bar self }
    {
        matches!(self, Sort::Bar)
    }

    /// `=`. Takes no memory.
    pub fn is_equals(self) -> bool
        ensures { result ≡ is_equals self }
    {
        matches!(self, Sort::Equals)
    }
}
