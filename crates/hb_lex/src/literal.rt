ghost use Rattle.std.specs.Prelude.{◌≡◌, ℕ, ◌+◌, ◌-◌, ◌*◌, ◌^◌, ◌<◌, ◌≤◌, length, drop, slice_index, Some, None, if◌then◌else◌, nat_lt, ◌||◌, ◌&&◌, ◌==◌};
ghost use Rattle.std.specs.List.{list_all};
ghost use Rattle.hb_lex.specs.Literals.{is_hex, digit_value, is_digit_of, digit_count, value_of, named_base, has_base, is_decimal, digit_bits, is_bit_digit, are_separated, is_bit_literal, literal_width, literal_value};
ghost use Rattle.hb_lex.specs.Pieces.{digits_piece, number_piece, upper_piece};
ghost use Rattle.hb_lex.specs.Reading.{longer, IsWithin};

use crate::bytes::{after, byte_at};
use crate::piece::{Piece, Shape, Wrong};

/// A decimal digit, or a letter from `a` to `f` in either case.
fn is_hex(byte: u8) -> bool
    ensures { result ≡ is_hex byte }
{
    byte.is_ascii_digit() || (byte >= b'A' && byte <= b'F') || (byte >= b'a' && byte <= b'f')
}

/// What a digit stands for.
fn digit_value(byte: u8) -> u8
    ensures { result ≡ digit_value byte }
{
    if byte.is_ascii_digit() {
        byte - b'0'
    } else if byte.is_ascii_lowercase() {
        byte - 87
    } else {
        byte.saturating_sub(55)
    }
}

fn is_digit_of(base: u8, byte: u8) -> bool
    ensures { result ≡ is_digit_of base byte }
{
    is_hex(byte) && digit_value(byte) < base
}

fn are_digits_of(base: u8, bytes: &[u8]) -> bool
    ensures { result ≡ list_all (is_digit_of base) bytes.now }
{
    bytes.iter().all(|byte| is_digit_of(base, *byte))
}

/// What digits stand for in a base, the highest first, where that is below 2^128. `_` is passed over.
fn value_of(base: u8, digits: &[u8]) -> Option<u128>
    requires { 0 < base }
    ensures { result ≡ (if nat_lt (value_of base digits.now) (2 ^ 128) then Some (value_of base digits.now) else None) }
{
    let mut value: u128 = 0;
    for byte in digits {
        match longer(base, value, *byte) {
            Some(next) => value = next,
            None => return None,
        }
    }
    Some(value)
}

/// A value with one digit more, or with a `_`, where that is below 2^128.
fn longer(base: u8, value: u128, byte: u8) -> Option<u128>
    ensures { result ≡ (if nat_lt (longer base value byte) (2 ^ 128) then Some (longer base value byte) else None) }
{
    if byte == b'_' {
        return Some(value);
    }
    match value.checked_mul(u128::from(base)) {
        Some(shifted) => shifted.checked_add(u128::from(digit_value(byte))),
        None => None,
    }
}

/// The base that the second byte of a number names, and 0 where it names none.
fn named_base(byte: u8) -> u8
    ensures { result ≡ named_base byte }
{
    if byte == b'x' {
        16
    } else if byte == b'o' {
        8
    } else if byte == b'b' {
        2
    } else {
        0
    }
}

/// `0x`, `0o` or `0b`, and then one or more digits of that base.
fn has_base(word: &[u8]) -> bool
    ensures { result ≡ has_base word.now }
{
    let base = named_base(byte_at(word, 1));
    if byte_at(word, 0) != b'0' || base == 0 || word.len() <= 2 {
        return false;
    }
    are_digits_of(base, after(word, 2))
}

/// The number of these digits, where it is below 2^64.
fn number_piece(size: usize, base: u8, digits: &[u8]) -> Piece
    requires base { 0 < base }
    requires size { 0 < size }
    ensures piece { result ≡ number_piece size (value_of base digits.now) }
    ensures within { IsWithin size result }
{
    match value_of(base, digits) {
        Some(value) if value <= u128::from(hb_base::limits::NUMBER) => {
            Piece::Token(Shape::Number(value as u64), size)
        }
        _ => Piece::Wrong(Wrong::Literal),
    }
}

/// What a run of letters, digits and `_` is that begins with a digit.
pub fn digits_piece(word: &[u8]) -> Piece
    requires { 0 < length word.now }
    ensures piece { result ≡ digits_piece word.now }
    ensures within { IsWithin (length word.now) result }
{
    if are_digits_of(10, word) {
        number_piece(word.len(), 10, word)
    } else if has_base(word) {
        number_piece(word.len(), named_base(byte_at(word, 1)), after(word, 2))
    } else {
        Piece::Wrong(Wrong::Literal)
    }
}

/// How many bits a digit of a bit literal stands for, by its first letter, and 0 where the letter begins none.
fn digit_bits(letter: u8) -> u8
    ensures value { result ≡ digit_bits letter }
    ensures range { result ≤ 4 }
{
    if letter == b'B' {
        1
    } else if letter == b'O' {
        3
    } else if letter == b'X' {
        4
    } else {
        0
    }
}

/// 2 to the power of at most 4.
fn base_of(bits: u8) -> u8
    requires { bits ≤ 4 }
    ensures { result ≡ 2 ^ bits }
{
    match bits {
        0 => 1,
        1 => 2,
        2 => 4,
        3 => 8,
        _ => 16,
    }
}

fn is_bit_digit(bits: u8, byte: u8) -> bool
    requires { bits ≤ 4 }
    ensures { result ≡ is_bit_digit bits byte }
{
    !byte.is_ascii_lowercase() && is_digit_of(base_of(bits), byte)
}

/// A digit may come, and a `_` after a digit.
fn goes_on(after_digit: bool, is_digit: bool, byte: u8) -> bool
    ensures { result ≡ is_digit || (after_digit && (byte == 95)) }
{
    is_digit || (after_digit && byte == b'_')
}

/// Digits of so many bits, with single `_` between digits.
fn are_separated(bits: u8, bytes: &[u8]) -> bool
    requires { bits ≤ 4 }
    ensures { result ≡ are_separated (is_bit_digit bits) bytes.now }
{
    let mut after_digit = false;
    for byte in bytes {
        let is_digit = is_bit_digit(bits, *byte);
        if !goes_on(after_digit, is_digit, *byte) {
            return false;
        }
        after_digit = is_digit;
    }
    after_digit
}

/// 0 for a `_`, and 1 for a digit.
fn digits_in(byte: u8) -> usize
    ensures { result ≡ (if byte == 95 then 0 else 1) }
{
    if byte == b'_' { 0 } else { 1 }
}

fn digit_count(bytes: &[u8]) -> usize
    ensures count { result ≡ digit_count bytes.now }
    ensures within { result ≤ length bytes.now }
{
    let mut count = 0;
    for byte in bytes {
        count += digits_in(*byte);
    }
    count
}

/// What a word is that begins with an upper-case letter.
pub fn upper_piece(word: &[u8]) -> Piece
    requires first { 0 < length word.now }
    requires few { length word.now ≤ 1048576 }
    ensures piece { result ≡ upper_piece word.now }
    ensures within { IsWithin (length word.now) result }
{
    let bits = digit_bits(byte_at(word, 0));
    let digits = after(word, 1);
    if bits == 0 || !are_separated(bits, digits) {
        return Piece::Token(Shape::ConId, word.len());
    }
    let width = usize::from(bits) * digit_count(digits);
    if width > 128 {
        return Piece::Wrong(Wrong::Literal);
    }
    match value_of(base_of(bits), digits) {
        Some(value) => Piece::Token(Shape::Bits(width as u32, value), word.len()),
        None => Piece::Wrong(Wrong::Literal),
    }
}
