ghost use Rattle.std.specs.Prelude.{◌≡◌};
ghost use Rattle.hb_read_types.specs.Sorts.{sort_of, var_sort, op_sort, mark_sort, word_sort};

use crate::node::TypeNode;
use hb_base::fixed::{AT_MOST, PLUS, POWER, TIMES, WILDCARD};
use hb_base::{Name, Place};
use hb_tokens::{Token, TokenKind, Word};

/// What a token is to a type or a predicate.
#[derive(Clone, Copy)]
pub enum Sort {
    /// A type by itself.
    Atom(TypeNode),
    /// `(`
    Open,
    /// `)`
    Close,
    /// `,`
    Comma,
    /// `->`
    Arrow,
    /// `=`
    Equals,
    /// The operator `+`.
    Plus,
    /// The operator `*`.
    Times,
    /// The operator `^`.
    Power,
    /// The operator `<=`.
    AtMost,
    /// What stands in no type and no predicate.
    Other,
}

/// What this token is to a type or a predicate.
pub fn sort_of(token: &Token) -> Sort
    ensures { result ≡ sort_of token.now }
{
    match token.kind {
        TokenKind::VarId(name) => var_sort(token.place, name),
        TokenKind::ConId(name) => Sort::Atom(TypeNode::Con(token.place, name)),
        TokenKind::Op(name) => op_sort(name),
        TokenKind::Word(word) => word_sort(word),
        TokenKind::Number(number) => Sort::Atom(TypeNode::Number(token.place, number)),
        TokenKind::Mark(byte) => mark_sort(byte),
        TokenKind::Bits(_, _) | TokenKind::Dot | TokenKind::End => Sort::Other,
    }
}

fn var_sort(place: Place, name: Name) -> Sort
    ensures { result ≡ var_sort place name }
{
    if name.0 == WILDCARD.0 {
        Sort::Other
    } else {
        Sort::Atom(TypeNode::Var(place, name))
    }
}

fn op_sort(name: Name) -> Sort
    ensures { result ≡ op_sort name }
{
    if name.0 == PLUS.0 {
        Sort::Plus
    } else if name.0 == TIMES.0 {
        Sort::Times
    } else if name.0 == POWER.0 {
        Sort::Power
    } else if name.0 == AT_MOST.0 {
        Sort::AtMost
    } else {
        Sort::Other
    }
}

fn word_sort(word: Word) -> Sort
    ensures { result ≡ word_sort word }
{
    match word {
        Word::Equals => Sort::Equals,
        Word::RightArrow => Sort::Arrow,
        _ => Sort::Other,
    }
}

fn mark_sort(byte: u8) -> Sort
    ensures { result ≡ mark_sort byte }
{
    match byte {
        b'(' => Sort::Open,
        b')' => Sort::Close,
        b',' => Sort::Comma,
        _ => Sort::Other,
    }
}
