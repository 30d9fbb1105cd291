//! Values as texts.
use crate::letter::Letter;
use crate::spelling::{Spelling, Spellings};
use hb_base::{List, Memory, Text};
use std::alloc::Global;

/// What is still to be written.
#[derive(Clone, Copy, Debug)]
enum Piece {
    /// A value of the type at this place.
    Value(usize),
    /// A space, and then a value that is bracketed where it has arguments.
    Argument(usize),
    Space,
    Close,
}

/// The letters that are left, and the text so far.
#[derive(Drop)]
struct Writer<'a> {
    types: &'a Spellings,
    names: &'a [List<Text>],
    letters: &'a [Letter],
    pieces: Vec<Piece>,
    text: Text,
}

fn digit(bit: bool) -> u8 {
    if bit { b'1' } else { b'0' }
}

impl<'a> Writer<'a> {
    fn next(&mut self) -> Option<Letter> {
        let (letter, rest) = self.letters.split_first()?;
        self.letters = rest;
        Some(*letter)
    }

    fn put_name(&mut self, of: usize, con: u32) -> Result<(), Memory> {
        if let Some(names) = self.names.get(of) {
            if let Some(name) = names.as_slice().get(con as usize) {
                for byte in name.as_slice() {
                    self.text.push(*byte)?;
                }
            }
        }
        Ok(())
    }

    /// A constructor. Its arguments are still to be written.
    fn put_con(&mut self, of: usize, con: u32, nested: bool) -> Result<(), Memory> {
        let arguments = self.types.arguments(of, con);
        let bracketed = nested && !arguments.is_empty();
        if bracketed {
            self.text.push(b'(')?;
            self.pieces.push(Piece::Close)?;
        }
        for argument in arguments.iter().rev() {
            self.pieces.push(Piece::Argument(*argument))?;
        }
        self.put_name(of, con)
    }

    fn put_word(&mut self, width: u32) -> Result<(), Memory> {
        self.text.push(b'B')?;
        for _ in 0..width {
            let bit = matches!(self.next(), Some(Letter::Bit(true)));
            self.text.push(digit(bit))?;
        }
        Ok(())
    }

    /// The last 32 bits of a number.
    fn put_number(&mut self, number: u64) -> Result<(), Memory> {
        self.text.push(b'B')?;
        for at in (0..u32::BITS).rev() {
            self.text.push(digit(number >> at & 1 == 1))?;
        }
        Ok(())
    }

    fn put_value(&mut self, of: usize, nested: bool) -> Result<(), Memory> {
        if let Some(Spelling::Bits(width)) = self.types.form(of) {
            let width = *width;
            return self.put_word(width);
        }
        match self.next() {
            Some(Letter::Con(con)) => self.put_con(of, con, nested),
            Some(Letter::Index(number)) => self.put_number(number),
            Some(Letter::Opaque) => self.text.push(b'_'),
            Some(Letter::Bit(_)) | None => Ok(()),
        }
    }

    fn put(&mut self, piece: Piece) -> Result<(), Memory> {
        match piece {
            Piece::Value(of) => self.put_value(of, false),
            Piece::Argument(of) => {
                self.text.push(b' ')?;
                self.put_value(of, true)
            }
            Piece::Space => self.text.push(b' '),
            Piece::Close => self.text.push(b')'),
        }
    }
}

/// The pieces of several values, the last one first.
fn pieces(alloc: Global, of: &[usize]) -> Result<Vec<Piece>, Memory> {
    let mut pieces = Vec::new(alloc);
    for one in of.iter().rev() {
        if !pieces.is_empty() {
            pieces.push(Piece::Space)?;
        }
        pieces.push(Piece::Value(*one))?;
    }
    Ok(pieces)
}

/// Values of the types `of` as a text: constructors by their names with their arguments, bracketed where they are
/// nested; words as `B` and binary digits, and indices as words of 32 bits; `_` for values that cannot be taken apart.
/// Several values are separated by a space. `names` has the names of constructors by the place of the type and the
/// number of the constructor.
pub fn value_text<'a>(
    alloc: Global,
    types: &'a Spellings,
    names: &'a List<List<Text>>,
    of: &List<usize>,
    letters: &'a List<Letter>,
) -> Result<Text, Memory> {
    let mut writer = Writer {
        types,
        names: names.as_slice(),
        letters: letters.as_slice(),
        pieces: pieces(alloc, of.as_slice())?,
        text: Text::of(Vec::new(alloc)),
    };
    for _ in 0..u64::MAX {
        match writer.pieces.pop() {
            Some(piece) => writer.put(piece)?,
            None => break,
        }
    }
    Ok(writer.text)
}
