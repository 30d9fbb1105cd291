//! The pieces that a line is written in, one behind the other, into the front of a buffer. None takes memory.

ghost use Rattle.std.specs.Prelude.{◌≡◌, ◌+◌, ◌≤◌, ◌<◌, [], ◌∷◌, ◌++◌, length, take, slice_get, decimal, Some};
ghost use Rattle.hb_base.specs.Ports.{ArePorts, IsPort};

use hb_base::{List, Port};
use itoa::Buffer;

/// The size of a buffer: the longest line of a run is shorter.
pub const ROOM: usize = 128;

pub fn put<const N: usize>(buffer: &mut [u8; N], at: usize, byte: u8) -> usize
    requires { at < N }
    ensures next { result ≡ at + 1 }
    ensures text { take result buffer.new ≡ take at buffer.old ++ byte ∷ [] }
{
    buffer[at] = byte;
    at + 1
}

pub fn put_text<const N: usize>(buffer: &mut [u8; N], at: usize, text: &[u8]) -> usize
    requires { at + length text.now ≤ N }
    ensures next { result ≡ at + length text.now }
    ensures text { take result buffer.new ≡ take at buffer.old ++ text.now }
{
    let mut end = at;
    for byte in text {
        end = put(buffer, end, *byte);
    }
    end
}

pub fn put_number<const N: usize>(buffer: &mut [u8; N], at: usize, number: u64) -> usize
    requires { at + 20 ≤ N }
    ensures next { result ≤ at + 20 }
    ensures text { take result buffer.new ≡ take at buffer.old ++ decimal number }
{
    let mut digits = Buffer::new();
    put_text(buffer, at, digits.format(number).as_bytes())
}

pub fn port_at(ports: &List<Port>, number: u32) -> &Port
    requires ports { ArePorts ports.now }
    requires there { number < length ports.now }
    ensures item { slice_get ports.now number ≡ Some result.now }
    ensures rules { IsPort result.now }
{
    &ports.as_slice()[number as usize]
}
