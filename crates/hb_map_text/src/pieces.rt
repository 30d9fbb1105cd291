//! The pieces that a line of a map is written in, one behind the other.

ghost use Rattle.std.specs.Prelude.{◌≡◌, ◌<◌, [], ◌∷◌, ◌++◌, decimal, OnOk};
ghost use Rattle.hb_map_text.specs.Pieces;
ghost use Rattle.hb_map_text.specs.Pieces.{hex_byte, address_digits, binary, pattern_digits, after_blank, number_after, address_after, pattern_after};

use hb_base::Memory;
use hb_bits::Pattern;
use itoa::Buffer;

pub fn put(text: &mut Vec<u8>, piece: &[u8]) -> Result<(), Memory>
    ensures { OnOk result (text.new.items ≡ text.old.items ++ piece.now) }
{
    text.extend_from_slice(piece)?;
    Ok(())
}

fn put_byte(text: &mut Vec<u8>, byte: u8) -> Result<(), Memory>
    ensures { OnOk result (text.new.items ≡ text.old.items ++ byte ∷ []) }
{
    text.push(byte)?;
    Ok(())
}

pub fn put_line_feed(text: &mut Vec<u8>) -> Result<(), Memory>
    ensures { OnOk result (text.new.items ≡ text.old.items ++ 10 ∷ []) }
{
    put_byte(text, b'\n')
}

fn put_number(text: &mut Vec<u8>, number: u64) -> Result<(), Memory>
    ensures { OnOk result (text.new.items ≡ text.old.items ++ decimal number) }
{
    let mut digits = Buffer::new();
    put(text, digits.format(number).as_bytes())
}

fn hex_digit(digit: u8) -> u8
    requires { digit < 16 }
    ensures { result ≡ Pieces.hex_digit digit }
{
    if digit < 10 {
        b'0' + digit
    } else {
        b'A' - 10 + digit
    }
}

fn put_hex_byte(text: &mut Vec<u8>, byte: u8) -> Result<(), Memory>
    ensures { OnOk result (text.new.items ≡ text.old.items ++ hex_byte byte) }
{
    put_byte(text, hex_digit(byte / 16))?;
    put_byte(text, hex_digit(byte % 16))
}

/// The eight digits of an address.
#[tactic(auto, unfolding(crate::specs::Pieces::address_digits))]
fn put_address(text: &mut Vec<u8>, address: u32) -> Result<(), Memory>
    ensures { OnOk result (text.new.items ≡ text.old.items ++ address_digits address) }
{
    put_hex_byte(text, (address / 16_777_216) as u8)?;
    put_hex_byte(text, (address / 65_536 % 256) as u8)?;
    put_hex_byte(text, (address / 256 % 256) as u8)?;
    put_hex_byte(text, (address % 256) as u8)
}

/// The last so many binary digits of a word, of which there are at most 64.
#[tactic(auto, unfolding(crate::specs::Pieces::binary))]
fn put_binary(text: &mut Vec<u8>, width: u32, word: u64) -> Result<(), Memory>
    ensures { OnOk result (text.new.items ≡ text.old.items ++ binary width word) }
{
    if width == 0 {
        return Ok(());
    }
    put_binary(text, width - 1, word / 2)?;
    put_byte(text, b'0' + (word % 2) as u8)?;
    Ok(())
}

fn put_pattern(text: &mut Vec<u8>, pattern: Pattern) -> Result<(), Memory>
    ensures { OnOk result (text.new.items ≡ text.old.items ++ pattern_digits pattern) }
{
    put_byte(text, b'B')?;
    put_binary(text, pattern.width, pattern.word)
}

/// A blank and these bytes.
pub fn put_word(text: &mut Vec<u8>, word: &[u8]) -> Result<(), Memory>
    ensures { OnOk result (text.new.items ≡ text.old.items ++ after_blank word.now) }
{
    put_byte(text, b' ')?;
    put(text, word)
}

/// A blank and a number.
pub fn put_number_word(text: &mut Vec<u8>, number: u64) -> Result<(), Memory>
    ensures { OnOk result (text.new.items ≡ text.old.items ++ number_after number) }
{
    put_byte(text, b' ')?;
    put_number(text, number)
}

/// A blank and an address.
pub fn put_address_word(text: &mut Vec<u8>, address: u32) -> Result<(), Memory>
    ensures { OnOk result (text.new.items ≡ text.old.items ++ address_after address) }
{
    put_byte(text, b' ')?;
    put_address(text, address)
}

/// A blank and a pattern.
pub fn put_pattern_word(text: &mut Vec<u8>, pattern: Pattern) -> Result<(), Memory>
    ensures { OnOk result (text.new.items ≡ text.old.items ++ pattern_after pattern) }
{
    put_byte(text, b' ')?;
    put_pattern(text, pattern)
}

/// A blank and two numbers with a colon between them.
pub fn put_place_word(text: &mut Vec<u8>, line: u32, column: u32) -> Result<(), Memory>
    ensures { OnOk result (text.new.items ≡ text.old.items ++ Pieces.place_after line column) }
{
    put_number_word(text, u64::from(line))?;
    put_byte(text, b':')?;
    put_number(text, u64::from(column))
}

/// A blank and two names with a dot between them.
pub fn put_dotted_word(text: &mut Vec<u8>, before: &[u8], after: &[u8]) -> Result<(), Memory>
    ensures { OnOk result (text.new.items ≡ text.old.items ++ Pieces.dotted_after before.now after.now) }
{
    put_word(text, before)?;
    put_byte(text, b'.')?;
    put(text, after)
}
