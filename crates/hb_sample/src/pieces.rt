//! The pieces that a text is written in, one behind the other.

ghost use Rattle.std.specs.Prelude.{◌≡◌, ◌++◌, decimal, OnOk};

use hb_base::Memory;
use itoa::Buffer;

pub fn put(text: &mut Vec<u8>, piece: &[u8]) -> Result<(), Memory>
    ensures { OnOk result (text.new.items ≡ text.old.items ++ piece.now) }
{
    text.extend_from_slice(piece)?;
    Ok(())
}

pub fn put_number(text: &mut Vec<u8>, number: u32) -> Result<(), Memory>
    ensures { OnOk result (text.new.items ≡ text.old.items ++ decimal number) }
{
    let mut digits = Buffer::new();
    put(text, digits.format(number).as_bytes())
}

/// Writes a piece, a number and a piece.
pub fn put_around(
    text: &mut Vec<u8>,
    before: &[u8],
    number: u32,
    after: &[u8],
) -> Result<(), Memory>
    ensures { OnOk result (text.new.items ≡ text.old.items ++ before.now ++ decimal number ++ after.now) }
{
    put(text, before)?;
    put_number(text, number)?;
    put(text, after)
}
