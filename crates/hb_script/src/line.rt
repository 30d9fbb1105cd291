ghost use Rattle.std.specs.Prelude.{◌≡◌, ◌+◌, ◌*◌, ◌≤◌, ◌<◌, [], ◌∷◌, ◌++◌, length, take, slice_get};
ghost use Rattle.std.specs.List.{flat_map};
ghost use Rattle.hb_base.specs.Ports.{ArePorts, IsPort, IsWidth};
ghost use Rattle.hb_script.specs.Lines;
ghost use Rattle.hb_script.specs.Lines.{hex_byte, hex, event_line, line_at, line_of, IsEvent, IsShown};

use crate::buffer::{ROOM, port_at, put, put_text};
use hb_base::{List, Port, Step};

fn hex_digit(digit: u8) -> u8
    requires { digit < 16 }
    ensures { result ≡ Lines.hex_digit digit }
{
    if digit < 10 {
        b'0' + digit
    } else {
        b'A' - 10 + digit
    }
}

fn put_hex_byte(buffer: &mut [u8; ROOM], at: usize, byte: u8) -> usize
    requires { at + 2 ≤ 128 }
    ensures next { result ≡ at + 2 }
    ensures text { take result buffer.new ≡ take at buffer.old ++ hex_byte byte }
{
    let end = put(buffer, at, hex_digit(byte / 16));
    put(buffer, end, hex_digit(byte % 16))
}

fn put_hex(buffer: &mut [u8; ROOM], at: usize, width: u8, value: u32) -> usize
    requires wide { IsWidth width }
    requires room { at + 8 ≤ 128 }
    ensures next { result ≡ at + 2 * width }
    ensures text { take result buffer.new ≡ take at buffer.old ++ hex width value }
{
    let mut end = at;
    for byte in &value.to_be_bytes()[4 - usize::from(width)..] {
        end = put_hex_byte(buffer, end, *byte);
    }
    end
}

fn put_event(buffer: &mut [u8; ROOM], letter: u8, port: &Port, value: u32) -> usize
    requires wide { IsWidth port.now.width }
    requires named { length port.now.name ≤ 64 }
    ensures within { result ≤ 128 }
    ensures text { take result buffer.new ≡ event_line letter value port.now }
{
    let end = put_text(buffer, 0, &[letter, b' ']);
    let end = put_text(buffer, end, port.name.as_slice());
    let end = put(buffer, end, b' ');
    let end = put_hex(buffer, end, port.width, value);
    put(buffer, end, b'\n')
}

fn put_line(buffer: &mut [u8; ROOM], letter: u8, ports: &List<Port>, port: u32, value: u32) -> usize
    requires ports { ArePorts ports.now }
    requires shown { IsEvent ports.now port value }
    ensures within { result ≤ 128 }
    ensures text { take result buffer.new ≡ line_at letter ports.now port value }
{
    let port = port_at(ports, port);
    put_event(buffer, letter, port, value)
}

/// Writes the line of a step, with its line feed, into the front of the buffer, and answers its length: 0 for a
/// step that shows nothing. Takes no memory.
pub fn line_text(step: Step, ports: &List<Port>, buffer: &mut [u8; ROOM]) -> usize
    requires ports { ArePorts ports.now }
    requires shown { IsShown ports.now step }
    ensures within { result ≤ 128 }
    ensures text { take result buffer.new ≡ line_of ports.now step }
{
    match step {
        Step::Read(port, value) => put_line(buffer, b'r', ports, port, value),
        Step::Wrote(port, value) => put_line(buffer, b'w', ports, port, value),
        Step::Going | Step::Ended(_) => 0,
    }
}
