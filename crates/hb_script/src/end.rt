ghost use Rattle.std.specs.Prelude.{◌≡◌, ◌+◌, ◌≤◌, ◌++◌, ◌∷◌, [], length, take, codes, decimal};
ghost use Rattle.hb_base.specs.Ports.{ArePorts, IsPort};
ghost use Rattle.hb_script.specs.Ends.{end_line, end_of, IsNamed};

use crate::buffer::{ROOM, port_at, put, put_number, put_text};
use hb_base::{List, Port, Stop};

fn put_steps(buffer: &mut [u8; ROOM], at: usize, done: u64) -> usize
    requires { at + 22 ≤ 128 }
    ensures within { result ≤ 128 }
    ensures text { take result buffer.new ≡ take at buffer.old ++ 32 ∷ decimal done ++ 10 ∷ [] }
{
    let end = put(buffer, at, b' ');
    let end = put_number(buffer, end, done);
    put(buffer, end, b'\n')
}

fn put_end(buffer: &mut [u8; ROOM], cause: &[u8], done: u64) -> usize
    requires { length cause.now ≤ 80 }
    ensures within { result ≤ 128 }
    ensures text { take result buffer.new ≡ end_line cause.now done }
{
    let end = put_text(buffer, 0, b"end ");
    let end = put_text(buffer, end, cause);
    put_steps(buffer, end, done)
}

fn put_halt(buffer: &mut [u8; ROOM], code: u32, done: u64) -> usize
    ensures within { result ≤ 128 }
    ensures text { take result buffer.new ≡ end_line (codes "halt " ++ decimal code) done }
{
    let end = put_text(buffer, 0, b"end halt ");
    let end = put_number(buffer, end, u64::from(code));
    put_steps(buffer, end, done)
}

fn put_input(buffer: &mut [u8; ROOM], port: &Port, done: u64) -> usize
    requires { IsPort port.now }
    ensures within { result ≤ 128 }
    ensures text { take result buffer.new ≡ end_line (codes "input " ++ port.now.name) done }
{
    let end = put_text(buffer, 0, b"end input ");
    let end = put_text(buffer, end, port.name.as_slice());
    put_steps(buffer, end, done)
}

/// Writes the last line of a run that ended so after this many steps, with its line feed, into the front of the
/// buffer, and answers its length: 0 where a line of the trace could not be written. Takes no memory.
pub fn end_text(stop: Stop, done: u64, ports: &List<Port>, buffer: &mut [u8; ROOM]) -> usize
    requires ports { ArePorts ports.now }
    requires named { IsNamed ports.now stop }
    ensures within { result ≤ 128 }
    ensures text { take result buffer.new ≡ end_of ports.now stop done }
{
    match stop {
        Stop::Done => put_end(buffer, b"done", done),
        Stop::Halt(code) => put_halt(buffer, code, done),
        Stop::Stack => put_end(buffer, b"stack", done),
        Stop::InputEnd(port) => put_input(buffer, port_at(ports, port), done),
        Stop::Steps => put_end(buffer, b"steps", done),
        Stop::Illegal => put_end(buffer, b"illegal", done),
        Stop::Misaligned => put_end(buffer, b"misaligned", done),
        Stop::Unmapped => put_end(buffer, b"unmapped", done),
        Stop::Break => put_end(buffer, b"break", done),
        Stop::Sink => 0,
    }
}
