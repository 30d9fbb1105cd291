ghost use Rattle.std.specs.Prelude.{◌≡◌, ℕ, ◌+◌, ◌*◌, ◌-◌, ◌^◌, ◌<◌, ◌≤◌, [], ◌∷◌, ◌++◌, List, length, drop, slice_get, Some, false, IfOk, IfErr, OnOk, OnErr, IfSome};
ghost use Rattle.hb_base.specs.Names.{with_texts};
ghost use Rattle.hb_lex.specs.Bytes.{place_after};
ghost use Rattle.hb_lex.specs.Pieces.{piece_at};
ghost use Rattle.hb_lex.specs.Tokens.{takes_dot, detail_of, lexeme};
ghost use Rattle.hb_lex.specs.Numbering.{shape_of, name_of, name_text, IsNumbered, Extends};
ghost use Rattle.hb_base.specs.Faults.{IfRefused};
ghost use Rattle.hb_lex.specs.declared.piece.Piece.TheVariants.{Comment};
ghost use Rattle.hb_lex.specs.Steps.{Took, IsStop};

use crate::bytes::{after, before, place_after};
use crate::comment::inside;
use crate::piece::{Piece, Shape, Wrong};
use crate::scan::piece_at;
use hb_base::{Code, Fault, Memory, Names, Place, refused};
use hb_tokens::{Token, TokenKind};
use std::alloc::Global;

/// The tokens read so far, and where the next byte stands. A dot right there may be a selection where `glued` says
/// so.
#[derive(Drop)]
pub struct Lexer {
    pub tokens: Vec<Token>,
    pub glued: bool,
    pub place: Place,
}

/// The kind of a token, its name taken into the table.
#[tactic(auto, unfolding(hb_base::specs::Names::with_texts))]
fn kind_of(shape: Shape, text: &[u8], names: &mut Names) -> Result<TokenKind, Memory>
    requires { length names.old < 2 ^ 32 - 1 }
    ensures shape { IfOk result (λ kind. shape_of kind ≡ shape) }
    ensures name { IfOk result (λ kind. IfSome (name_of kind) (λ n. slice_get names.new n ≡ Some text.now)) }
    ensures table { OnOk result (names.new ≡ with_texts names.old (name_text shape text.now)) }
    ensures unchanged { OnErr result (names.new ≡ names.old) }
{
    match shape {
        Shape::VarId => {
            let name = names.intern(text)?;
            Ok(TokenKind::VarId(name))
        }
        Shape::ConId => {
            let name = names.intern(text)?;
            Ok(TokenKind::ConId(name))
        }
        Shape::Op => {
            let name = names.intern(text)?;
            Ok(TokenKind::Op(name))
        }
        Shape::Word(word) => Ok(TokenKind::Word(word)),
        Shape::Number(value) => Ok(TokenKind::Number(value)),
        Shape::Bits(width, value) => Ok(TokenKind::Bits(width, value)),
        Shape::Mark(byte) => Ok(TokenKind::Mark(byte)),
        Shape::Dot => Ok(TokenKind::Dot),
        Shape::End => Ok(TokenKind::End),
    }
}

/// A dot right after it may be a selection.
fn takes_dot(shape: Shape, text: &[u8]) -> bool
    ensures { result ≡ takes_dot shape text.now }
{
    match shape {
        Shape::VarId => text != b"_".as_slice(),
        Shape::ConId => true,
        Shape::Mark(byte) => byte == b')' || byte == b']',
        _ => false,
    }
}

/// The refusal where no token can be read.
fn stopped(alloc: Global, place: Place, wrong: Wrong) -> Fault
    ensures { IfRefused (λ refusal. refusal ≡ record { code = Code.E02; place = place; detail = detail_of wrong }) result }
{
    match wrong {
        Wrong::Literal => refused(alloc, Code::E02, place, b"literal"),
        Wrong::Comment => refused(alloc, Code::E02, place, b"comment"),
        Wrong::Quote => refused(alloc, Code::E02, place, b"quote"),
    }
}

impl Lexer {
    /// Passes over these bytes, which are no token.
    fn skip(&mut self, text: &[u8])
        requires line { self.old.place.line + length text.now < 2 ^ 31 }
        requires col { self.old.place.col + 8 * length text.now < 2 ^ 31 }
        ensures tokens { self.new.tokens ≡ self.old.tokens }
        ensures glued { self.new.glued ≡ false }
        ensures place { self.new.place ≡ place_after self.old.place text.now }
        ensures line { self.new.place.line ≤ self.old.place.line + length text.now }
        ensures col { self.new.place.col ≤ self.old.place.col + 8 * length text.now }
    {
        self.place = place_after(self.place, text);
        self.glued = false;
    }

    /// Puts the token of this shape and text.
    fn put(&mut self, shape: Shape, text: &[u8], names: &mut Names) -> Result<(), Memory>
        requires line { self.old.place.line + length text.now < 2 ^ 31 }
        requires col { self.old.place.col + 8 * length text.now < 2 ^ 31 }
        requires names { length names.old < 2 ^ 32 - 1 }
        ensures token { OnOk result ((t : Token) × (self.new.tokens.items ≡ self.old.tokens.items ++ t ∷ []) × (IsNumbered names.new (lexeme self.old.place shape text.now) t)) }
        ensures glued { OnOk result (self.new.glued ≡ takes_dot shape text.now) }
        ensures place { OnOk result (self.new.place ≡ place_after self.old.place text.now) }
        ensures line { OnOk result (self.new.place.line ≤ self.old.place.line + length text.now) }
        ensures col { OnOk result (self.new.place.col ≤ self.old.place.col + 8 * length text.now) }
        ensures table { OnOk result (names.new ≡ with_texts names.old (name_text shape text.now)) }
        ensures count { length names.new ≤ length names.old + 1 }
        ensures kept { Extends names.old names.new }
    {
        let kind = kind_of(shape, text, names)?;
        self.tokens.push(Token {
            place: self.place,
            kind,
        })?;
        self.place = place_after(self.place, text);
        self.glued = takes_dot(shape, text);
        Ok(())
    }

    /// Passes over a comment that nests, with which these bytes begin. The answer is the number of its bytes.
    fn take_comment(&mut self, alloc: Global, rest: &[u8]) -> Result<usize, Fault>
        requires opens { Comment ≡ piece_at self.old.glued rest.now }
        requires some { 2 ≤ length rest.now }
        requires few { length rest.now ≤ 1048576 }
        requires line { self.old.place.line + length rest.now < 2 ^ 31 }
        requires col { self.old.place.col + 8 * length rest.now < 2 ^ 31 }
        ensures took { IfOk result (λ size. (table : List (List ℕ)) → Took table table self.old.tokens.items self.new.tokens.items self.old.glued self.new.glued self.old.place self.new.place rest.now (drop size rest.now)) }
        ensures size { IfOk result (λ size. (0 < size) × (size ≤ length rest.now)) }
        ensures line { IfOk result (λ size. self.new.place.line ≤ self.old.place.line + size) }
        ensures col { IfOk result (λ size. self.new.place.col ≤ self.old.place.col + 8 * size) }
        ensures fault { IfErr result (IfRefused (IsStop self.old.glued self.old.place rest.now)) }
    {
        match inside(after(rest, 2)) {
            Some(size) => {
                self.skip(before(rest, 2 + size));
                Ok(2 + size)
            }
            None => Err(stopped(alloc, self.place, Wrong::Comment)),
        }
    }

    /// Takes what these bytes begin with. The answer is the number of its bytes.
    pub fn take(&mut self, alloc: Global, rest: &[u8], names: &mut Names) -> Result<usize, Fault>
        requires some { 0 < length rest.now }
        requires few { length rest.now ≤ 1048576 }
        requires line { self.old.place.line + length rest.now < 2 ^ 31 }
        requires col { self.old.place.col + 8 * length rest.now < 2 ^ 31 }
        requires names { length names.old < 2 ^ 32 - 1 }
        ensures took { IfOk result (λ size. Took names.old names.new self.old.tokens.items self.new.tokens.items self.old.glued self.new.glued self.old.place self.new.place rest.now (drop size rest.now)) }
        ensures size { IfOk result (λ size. (0 < size) × (size ≤ length rest.now)) }
        ensures line { IfOk result (λ size. self.new.place.line ≤ self.old.place.line + size) }
        ensures col { IfOk result (λ size. self.new.place.col ≤ self.old.place.col + 8 * size) }
        ensures count { length names.new ≤ length names.old + 1 }
        ensures kept { Extends names.old names.new }
        ensures fault { IfErr result (IfRefused (IsStop self.old.glued self.old.place rest.now)) }
    {
        match piece_at(self.glued, rest) {
            Piece::Skip(size) => {
                self.skip(before(rest, size));
                Ok(size)
            }
            Piece::Comment => {
                let size = self.take_comment(alloc, rest)?;
                Ok(size)
            }
            Piece::Token(shape, size) => match self.put(shape, before(rest, size), names) {
                Ok(()) => Ok(size),
                Err(Memory) => Err(Fault::Memory),
            },
            Piece::Wrong(wrong) => Err(stopped(alloc, self.place, wrong)),
        }
    }
}
