ghost use Rattle.std.specs.Prelude.{◌≡◌, ℕ, ◌+◌, ◌<◌, ◌≤◌, length, slice_index, true, ◌==◌};
ghost use Rattle.std.specs.List.{list_all};
ghost use Rattle.hb_lex.specs.Bytes.{is_symbol};
ghost use Rattle.hb_lex.specs.Pieces.{lower_piece, is_dashes, is_selection, symbols_piece, opens_comment, piece_at};
ghost use Rattle.hb_lex.specs.Reading.{IsWithin};

use crate::bytes::{Class, begins_name, byte_at, front, is_mark, is_symbol, is_white, run};
use crate::literal::{digits_piece, upper_piece};
use crate::piece::{Piece, Shape, Wrong};
use crate::word::{operator_word, word_of};

/// What a word is that begins with a lower-case letter or `_`.
fn lower_piece(word: &[u8]) -> Piece
    requires { 0 < length word.now }
    ensures piece { result ≡ lower_piece word.now }
    ensures within { IsWithin (length word.now) result }
{
    match word_of(word) {
        Some(reserved) => Piece::Token(Shape::Word(reserved), word.len()),
        None => Piece::Token(Shape::VarId, word.len()),
    }
}

/// Two or more `-` and nothing else.
fn is_dashes(text: &[u8]) -> bool
    ensures { result ≡ is_dashes text.now }
{
    text.len() > 1 && are_dashes(text)
}

fn are_dashes(text: &[u8]) -> bool
    ensures { result ≡ list_all (λ c. c == 45) text.now }
{
    text.iter().all(|byte| *byte == b'-')
}

/// `.` alone, right after a name, `)` or `]`, and right before a lower-case letter.
fn is_selection(glued: bool, text: &[u8], bytes: &[u8]) -> bool
    ensures { result ≡ is_selection glued text.now bytes.now }
{
    glued && text == b".".as_slice() && byte_at(bytes, 1).is_ascii_lowercase()
}

/// What a run of symbols is, with which these bytes begin.
fn symbols_piece(glued: bool, text: &[u8], bytes: &[u8]) -> Piece
    requires first { is_symbol (slice_index bytes.now 0) ≡ true }
    requires some { 0 < length text.now }
    requires within { length text.now ≤ length bytes.now }
    ensures piece { result ≡ symbols_piece glued text.now bytes.now }
    ensures within { IsWithin (length bytes.now) result }
{
    if is_dashes(text) {
        return Piece::Skip(run(Class::InLine, bytes));
    }
    if is_selection(glued, text, bytes) {
        return Piece::Token(Shape::Dot, 1);
    }
    match operator_word(text) {
        Some(reserved) => Piece::Token(Shape::Word(reserved), text.len()),
        None => Piece::Token(Shape::Op, text.len()),
    }
}

fn opens_comment(bytes: &[u8]) -> bool
    ensures { result ≡ opens_comment bytes.now }
{
    byte_at(bytes, 0) == b'{' && byte_at(bytes, 1) == b'-'
}

/// What begins with the first of these bytes. The flag says that a name, `)` or `]` stands right before it.
#[tactic(auto, unfolding(crate::specs::Pieces::piece_at))]
pub fn piece_at(glued: bool, bytes: &[u8]) -> Piece
    requires some { 0 < length bytes.now }
    requires few { length bytes.now ≤ 1048576 }
    ensures piece { result ≡ piece_at glued bytes.now }
    ensures within { IsWithin (length bytes.now) result }
{
    let first = byte_at(bytes, 0);
    if is_white(first) {
        Piece::Skip(1)
    } else if opens_comment(bytes) {
        Piece::Comment
    } else if begins_name(first) {
        lower_piece(front(Class::Name, bytes))
    } else if first.is_ascii_uppercase() {
        upper_piece(front(Class::Name, bytes))
    } else if first.is_ascii_digit() {
        digits_piece(front(Class::LetterOrDigit, bytes))
    } else if is_symbol(first) {
        symbols_piece(glued, front(Class::Symbol, bytes), bytes)
    } else if is_mark(first) {
        Piece::Token(Shape::Mark(first), 1)
    } else {
        Piece::Wrong(Wrong::Quote)
    }
}
