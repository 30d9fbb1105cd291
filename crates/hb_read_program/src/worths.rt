ghost use Rattle.std.specs.Prelude.{◌≡◌};
ghost use Rattle.hb_read_declarations.specs.Worths.{var, con, op, this_con, this_op, this_word, mark, number, digit, bits, end_of};

use crate::words::word_code;
use hb_base::fixed::WILDCARD;
use hb_base::{Name, Place};
use hb_read_declarations::Width;
use hb_tokens::{Token, TokenKind, Word};
use hb_tree::NameAt;

/// A variable.
pub fn var(token: &Token) -> Option<NameAt>
    ensures { result ≡ var token.now }
{
    match token.kind {
        TokenKind::VarId(name) => {
            if name.0 == WILDCARD.0 {
                None
            } else {
                Some(NameAt {
                    place: token.place,
                    name,
                })
            }
        }
        _ => None,
    }
}

/// A constructor.
pub fn con(token: &Token) -> Option<NameAt>
    ensures { result ≡ con token.now }
{
    match token.kind {
        TokenKind::ConId(name) => Some(NameAt {
            place: token.place,
            name,
        }),
        _ => None,
    }
}

/// An operator.
pub fn op(token: &Token) -> Option<NameAt>
    ensures { result ≡ op token.now }
{
    match token.kind {
        TokenKind::Op(name) => Some(NameAt {
            place: token.place,
            name,
        }),
        _ => None,
    }
}

/// The constructor of this name.
pub fn this_con(this: Name, token: &Token) -> Option<Place>
    ensures { result ≡ this_con this token.now }
{
    match token.kind {
        TokenKind::ConId(name) => {
            if name.0 == this.0 {
                Some(token.place)
            } else {
                None
            }
        }
        _ => None,
    }
}

/// The operator of this name.
pub fn this_op(this: Name, token: &Token) -> Option<Place>
    ensures { result ≡ this_op this token.now }
{
    match token.kind {
        TokenKind::Op(name) => {
            if name.0 == this.0 {
                Some(token.place)
            } else {
                None
            }
        }
        _ => None,
    }
}

/// This word.
pub fn this_word(this: Word, token: &Token) -> Option<Place>
    ensures { result ≡ this_word this token.now }
{
    match token.kind {
        TokenKind::Word(word) => {
            if word_code(word) == word_code(this) {
                Some(token.place)
            } else {
                None
            }
        }
        _ => None,
    }
}

/// This mark.
pub fn mark(this: u8, token: &Token) -> Option<Place>
    ensures { result ≡ mark this token.now }
{
    match token.kind {
        TokenKind::Mark(byte) => {
            if byte == this {
                Some(token.place)
            } else {
                None
            }
        }
        _ => None,
    }
}

/// A number.
pub fn number(token: &Token) -> Option<u64>
    ensures { result ≡ number token.now }
{
    match token.kind {
        TokenKind::Number(number) => Some(number),
        _ => None,
    }
}

/// A number up to 9.
pub fn digit(token: &Token) -> Option<u64>
    ensures { result ≡ digit token.now }
{
    match token.kind {
        TokenKind::Number(number) => { if number <= 9 { Some(number) } else { None } }
        _ => None,
    }
}

/// A bit literal.
pub fn bits(token: &Token) -> Option<Width>
    ensures { result ≡ bits token.now }
{
    match token.kind {
        TokenKind::Bits(width, number) => Some(Width { width, number }),
        _ => None,
    }
}

/// The end of the text.
pub fn end_of(token: &Token) -> Option<Place>
    ensures { result ≡ end_of token.now }
{
    match token.kind {
        TokenKind::End => Some(token.place),
        _ => None,
    }
}
