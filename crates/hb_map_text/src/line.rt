ghost use Rattle.std.specs.Prelude.{◌≡◌, ◌++◌, OnOk};
ghost use Rattle.hb_map_text.specs.MapLines;
ghost use Rattle.hb_map_text.specs.MapLines.{area_line, field_line, port_line, stack_line, bits_line, junk_line, confusion_line, room_line, line_of};

use crate::pieces::{
    put, put_address_word, put_dotted_word, put_line_feed, put_number_word, put_pattern_word,
    put_place_word, put_word,
};
use hb_base::{Dir, Memory, Place};
use hb_bits::Pattern;

/// The address at which the stack's region ends.
const STACK_END: u32 = 0x4000_0000;

/// The bytes that the stack's region has beside the stack.
const RESULT_BYTES: u32 = 1_024;

/// One line of a map.
#[derive(Clone, Copy)]
pub enum MapLine<'a> {
    /// An area by its name, its address, its size in bytes and its alignment.
    Area(&'a [u8], u32, u32, u32),
    /// A field by its struct's name and its own, its offset and its size in bytes.
    Field(&'a [u8], &'a [u8], u32, u32),
    /// A port by its name, its way, its address and its bytes.
    Port(&'a [u8], Dir, u32, u8),
    /// The stack by its bytes as they were asked for.
    Stack(u32),
    /// A bitdata type by its name, and its width.
    Bits(&'a [u8], u32),
    /// A bitdata type by its name, and the least pattern that is none of its values.
    Junk(&'a [u8], Pattern),
    /// A bitdata type by its name, two of its constructors, and the least pattern of both.
    Confusion(&'a [u8], &'a [u8], &'a [u8], Pattern),
    /// A body by its name and place, and the bytes of its room.
    Room(&'a [u8], Place, u32),
}

fn put_area(
    text: &mut Vec<u8>,
    name: &[u8],
    address: u32,
    size: u32,
    align: u32,
) -> Result<(), Memory>
    ensures { OnOk result (text.new.items ≡ text.old.items ++ area_line name.now address size align) }
{
    put(text, b"area")?;
    put_word(text, name)?;
    put_address_word(text, address)?;
    put_two_numbers(text, size, align)
}

/// The last two words of a line, with its line feed.
fn put_two_numbers(text: &mut Vec<u8>, first: u32, second: u32) -> Result<(), Memory>
    ensures { OnOk result (text.new.items ≡ text.old.items ++ MapLines.two_numbers first second) }
{
    put_number_word(text, u64::from(first))?;
    put_number_word(text, u64::from(second))?;
    put_line_feed(text)
}

fn put_field(
    text: &mut Vec<u8>,
    owner: &[u8],
    name: &[u8],
    offset: u32,
    size: u32,
) -> Result<(), Memory>
    ensures { OnOk result (text.new.items ≡ text.old.items ++ field_line owner.now name.now offset size) }
{
    put(text, b"field")?;
    put_dotted_word(text, owner, name)?;
    put_two_numbers(text, offset, size)
}

/// An address and a number as the last words of a line, with its line feed.
fn put_address_and_number(text: &mut Vec<u8>, address: u32, number: u32) -> Result<(), Memory>
    ensures { OnOk result (text.new.items ≡ text.old.items ++ MapLines.address_and_number address number) }
{
    put_address_word(text, address)?;
    put_number_word(text, u64::from(number))?;
    put_line_feed(text)
}

fn put_way(text: &mut Vec<u8>, way: Dir) -> Result<(), Memory>
    ensures { OnOk result (text.new.items ≡ text.old.items ++ MapLines.way_after way) }
{
    match way {
        Dir::In => put(text, b" In"),
        Dir::Out => put(text, b" Out"),
    }
}

fn put_port(
    text: &mut Vec<u8>,
    name: &[u8],
    way: Dir,
    address: u32,
    bytes: u8,
) -> Result<(), Memory>
    ensures { OnOk result (text.new.items ≡ text.old.items ++ port_line name.now way address bytes) }
{
    put(text, b"port")?;
    put_word(text, name)?;
    put_way(text, way)?;
    put_address_and_number(text, address, u32::from(bytes))
}

fn put_stack(text: &mut Vec<u8>, stack: u32) -> Result<(), Memory>
    ensures { OnOk result (text.new.items ≡ text.old.items ++ stack_line stack) }
{
    let bytes = stack - stack % 4;
    let lowest = STACK_END.saturating_sub(bytes).saturating_sub(RESULT_BYTES);
    put(text, b"stack")?;
    put_address_and_number(text, lowest, bytes)
}

fn put_bits(text: &mut Vec<u8>, name: &[u8], width: u32) -> Result<(), Memory>
    ensures { OnOk result (text.new.items ≡ text.old.items ++ bits_line name.now width) }
{
    put(text, b"bits")?;
    put_word(text, name)?;
    put_number_word(text, u64::from(width))?;
    put_line_feed(text)
}

fn put_junk(text: &mut Vec<u8>, name: &[u8], pattern: Pattern) -> Result<(), Memory>
    ensures { OnOk result (text.new.items ≡ text.old.items ++ junk_line name.now pattern) }
{
    put(text, b"junk")?;
    put_word(text, name)?;
    put_pattern_word(text, pattern)?;
    put_line_feed(text)
}

/// Two constructors and a pattern as the last words of a line, with its line feed.
fn put_pair(text: &mut Vec<u8>, first: &[u8], second: &[u8], pattern: Pattern) -> Result<(), Memory>
    ensures { OnOk result (text.new.items ≡ text.old.items ++ MapLines.pair_and_pattern first.now second.now pattern) }
{
    put_word(text, first)?;
    put_word(text, second)?;
    put_pattern_word(text, pattern)?;
    put_line_feed(text)
}

fn put_confusion(
    text: &mut Vec<u8>,
    name: &[u8],
    first: &[u8],
    second: &[u8],
    pattern: Pattern,
) -> Result<(), Memory>
    ensures { OnOk result (text.new.items ≡ text.old.items ++ confusion_line name.now first.now second.now pattern) }
{
    put(text, b"confusion")?;
    put_word(text, name)?;
    put_pair(text, first, second, pattern)
}

fn put_room(text: &mut Vec<u8>, name: &[u8], place: Place, bytes: u32) -> Result<(), Memory>
    ensures { OnOk result (text.new.items ≡ text.old.items ++ room_line name.now place bytes) }
{
    put(text, b"room")?;
    put_word(text, name)?;
    put_place_word(text, place.line, place.col)?;
    put_last_number(text, bytes)
}

/// A number as the last word of a line, with its line feed.
fn put_last_number(text: &mut Vec<u8>, number: u32) -> Result<(), Memory>
    ensures { OnOk result (text.new.items ≡ text.old.items ++ MapLines.last_number number) }
{
    put_number_word(text, u64::from(number))?;
    put_line_feed(text)
}

/// Writes a line of a map, with its line feed, behind this text. Addresses have eight upper-case hexadecimal digits,
/// other numbers are decimal, patterns are `B` and binary digits.
///
/// # Errors
///
/// `Memory` where there is no room for the line; a part of it may be written then.
pub fn put_line(text: &mut Vec<u8>, line: &MapLine) -> Result<(), Memory>
    ensures line { OnOk result (text.new.items ≡ text.old.items ++ line_of line.now) }
{
    match line {
        MapLine::Area(name, address, size, align) => put_area(text, name, *address, *size, *align),
        MapLine::Field(owner, name, offset, size) => put_field(text, owner, name, *offset, *size),
        MapLine::Port(name, way, address, bytes) => put_port(text, name, *way, *address, *bytes),
        MapLine::Stack(bytes) => put_stack(text, *bytes),
        MapLine::Bits(name, width) => put_bits(text, name, *width),
        MapLine::Junk(name, pattern) => put_junk(text, name, *pattern),
        MapLine::Confusion(name, first, second, pattern) => put_confusion(
            text, name, first, second, *pattern,
        ),
        MapLine::Room(name, place, bytes) => put_room(text, name, *place, *bytes),
    }
}
