ghost use Rattle.std.specs.Prelude.{◌≡◌, ℕ, ◌+◌, ◌-◌, ◌*◌, ◌^◌, ◌%◌, ◌<◌, ◌≤◌, length, take, drop, slice_index, true};
ghost use Rattle.hb_base.specs.PortName.{is_lower, is_upper, is_digit, begins_name, continues_name};
ghost use Rattle.hb_lex.specs.Bytes.{is_allowed, is_white, is_letter_or_digit, is_symbol, is_mark, is_in_line, run, next_place, place_after, belongs, front};

use hb_base::Place;

/// The classes of bytes that runs are made of.
#[derive(Clone, Copy, Debug, PartialEq, Eq)]
pub enum Class {
    /// Letters, digits, `_` and `'`.
    Name,
    /// Letters, digits and `_`.
    LetterOrDigit,
    Symbol,
    /// All but a line feed.
    InLine,
    /// What a source may have.
    Allowed,
}

/// A tab, a line feed, a carriage return, or 20 to 7E.
pub fn is_allowed(byte: u8) -> bool
    ensures { result ≡ is_allowed byte }
{
    byte == b'\t' || byte == b'\n' || byte == b'\r' || (byte >= b' ' && byte <= b'~')
}

pub fn is_white(byte: u8) -> bool
    ensures { result ≡ is_white byte }
{
    byte == b' ' || byte == b'\t' || byte == b'\n' || byte == b'\r'
}

pub fn begins_name(byte: u8) -> bool
    ensures { result ≡ begins_name byte }
{
    byte.is_ascii_lowercase() || byte == b'_'
}

pub fn continues_name(byte: u8) -> bool
    ensures { result ≡ continues_name byte }
{
    byte.is_ascii_lowercase()
        || byte.is_ascii_uppercase()
        || byte.is_ascii_digit()
        || byte == b'_'
        || byte == b'\''
}

pub fn is_letter_or_digit(byte: u8) -> bool
    ensures { result ≡ is_letter_or_digit byte }
{
    byte.is_ascii_lowercase() || byte.is_ascii_uppercase() || byte.is_ascii_digit() || byte == b'_'
}

pub fn is_symbol(byte: u8) -> bool
    ensures { result ≡ is_symbol byte }
{
    byte == b'!'
        || byte == b'#'
        || byte == b'$'
        || byte == b'%'
        || byte == b'&'
        || byte == b'*'
        || byte == b'+'
        || byte == b'.'
        || byte == b'/'
        || byte == b'<'
        || byte == b'='
        || byte == b'>'
        || byte == b'?'
        || byte == b'@'
        || byte == b'\\'
        || byte == b'^'
        || byte == b'|'
        || byte == b'-'
        || byte == b'~'
        || byte == b':'
}

pub fn is_mark(byte: u8) -> bool
    ensures { result ≡ is_mark byte }
{
    byte == b'('
        || byte == b')'
        || byte == b'['
        || byte == b']'
        || byte == b'{'
        || byte == b'}'
        || byte == b','
        || byte == b';'
        || byte == b'`'
}

fn belongs(class: Class, byte: u8) -> bool
    ensures { result ≡ belongs class byte }
{
    match class {
        Class::Name => continues_name(byte),
        Class::LetterOrDigit => is_letter_or_digit(byte),
        Class::Symbol => is_symbol(byte),
        Class::InLine => byte != b'\n',
        Class::Allowed => is_allowed(byte),
    }
}

/// How many bytes from the first on are of a class, as long as they go on.
pub fn run(class: Class, bytes: &[u8]) -> usize
    ensures size { result ≡ run (belongs class) bytes.now }
    ensures within { result ≤ length bytes.now }
    ensures first { belongs class (slice_index bytes.now 0) ≡ true → 0 < length bytes.now → 0 < result }
{
    for (i, byte) in bytes.iter().enumerate() {
        if !belongs(class, *byte) {
            return i;
        }
    }
    bytes.len()
}

/// The place after a byte.
fn next_place(place: Place, byte: u8) -> Place
    requires line { place.line < 2 ^ 31 }
    requires col { place.col < 2 ^ 31 }
    ensures place { result ≡ next_place place byte }
    ensures line { result.line ≤ place.line + 1 }
    ensures col { result.col ≤ place.col + 8 }
{
    if byte == b'\n' {
        Place {
            line: place.line + 1,
            col: 1,
        }
    } else if byte == b'\t' {
        Place {
            line: place.line,
            col: place.col + (8 - place.col.saturating_sub(1) % 8),
        }
    } else {
        Place {
            line: place.line,
            col: place.col + 1,
        }
    }
}

/// The place after these bytes.
pub fn place_after(place: Place, bytes: &[u8]) -> Place
    requires line { place.line + length bytes.now < 2 ^ 31 }
    requires col { place.col + 8 * length bytes.now < 2 ^ 31 }
    ensures place { result ≡ place_after place bytes.now }
    ensures line { result.line ≤ place.line + length bytes.now }
    ensures col { result.col ≤ place.col + 8 * length bytes.now }
{
    let mut here = place;
    for byte in bytes {
        here = next_place(here, *byte);
    }
    here
}

/// The byte at a place, and 0 past the end.
pub fn byte_at(bytes: &[u8], place: usize) -> u8
    ensures { result ≡ slice_index bytes.now place }
{
    bytes.get(place).copied().unwrap_or(0)
}

/// The bytes without the first so many.
pub fn after(bytes: &[u8], size: usize) -> &[u8]
    requires { size ≤ length bytes.now }
    ensures { result.now ≡ drop size bytes.now }
{
    &bytes[size..]
}

/// The first so many bytes.
pub fn before(bytes: &[u8], size: usize) -> &[u8]
    requires { size ≤ length bytes.now }
    ensures bytes { result.now ≡ take size bytes.now }
    ensures size { length result.now ≡ size }
{
    &bytes[..size]
}

/// The longest run of a class, from the first byte on.
pub fn front(class: Class, bytes: &[u8]) -> &[u8]
    ensures bytes { result.now ≡ front class bytes.now }
    ensures within { length result.now ≤ length bytes.now }
    ensures first { belongs class (slice_index bytes.now 0) ≡ true → 0 < length bytes.now → 0 < length result.now }
{
    before(bytes, run(class, bytes))
}
