ghost use Rattle.std.specs.Prelude.{◌≡◌, ◌≤◌, length, Some, None, IfSome, MatchOption};
ghost use Rattle.std.specs.Option.{option_copied};
ghost use Rattle.hb_layout.specs.Profile.{arrow_after, arrow_after_kind, left_out_word, left_out_kind, first_left_out};

use hb_base::Place;
use hb_tokens::{Token, TokenKind, Word};

/// A word or form of Habit that is left out, and where it stands.
#[derive(Clone, Copy)]
pub struct LeftOut {
    pub place: Place,
    pub text: &'static [u8],
}

/// What is left out where an arrow comes right after this word.
fn arrow_after(word: Word) -> Option<&'static [u8]>
    ensures text { option_copied result ≡ arrow_after word }
    ensures short { IfSome result (λ text. length text.now ≤ 200) }
{
    match word {
        Word::If => Some(b"if <-"),
        Word::Case => Some(b"case <-"),
        _ => None,
    }
}

fn arrow_after_kind(kind: TokenKind) -> Option<&'static [u8]>
    ensures text { option_copied result ≡ arrow_after_kind kind }
    ensures short { IfSome result (λ text. length text.now ≤ 200) }
{
    match kind {
        TokenKind::Word(word) => arrow_after(word),
        _ => None,
    }
}

/// What is left out at a word, after a token of some kind.
fn left_out_word(before: TokenKind, word: Word) -> Option<&'static [u8]>
    ensures text { option_copied result ≡ left_out_word before word }
    ensures short { IfSome result (λ text. length text.now ≤ 200) }
{
    match word {
        Word::Module => Some(b"module"),
        Word::Import => Some(b"import"),
        Word::Export => Some(b"export"),
        Word::Deriving => Some(b"deriving"),
        Word::Default => Some(b"default"),
        Word::TypeWord => Some(b"type"),
        Word::Newtype => Some(b"newtype"),
        Word::Foreign => Some(b"foreign"),
        Word::Opaque => Some(b"opaque"),
        Word::Fails => Some(b"fails"),
        Word::LeftArrow => arrow_after_kind(before),
        _ => None,
    }
}

fn left_out_kind(before: TokenKind, kind: TokenKind) -> Option<&'static [u8]>
    ensures text { option_copied result ≡ left_out_kind before kind }
    ensures short { IfSome result (λ text. length text.now ≤ 200) }
{
    match kind {
        TokenKind::Word(word) => left_out_word(before, word),
        _ => None,
    }
}

/// The first word or form that is left out.
pub fn first_left_out(tokens: &[Token]) -> Option<LeftOut>
    ensures first { MatchOption result (first_left_out tokens.now ≡ None) (λ found. first_left_out tokens.now ≡ Some (found.place, found.text.now)) }
    ensures short { IfSome result (λ found. length found.text.now ≤ 200) }
{
    let mut before = TokenKind::End;
    for token in tokens {
        if let Some(text) = left_out_kind(before, token.kind) {
            return Some(LeftOut {
                place: token.place,
                text,
            });
        }
        before = token.kind;
    }
    None
}
