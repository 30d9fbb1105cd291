//! What one line of a script says.

ghost use Rattle.std.specs.Prelude.{◌≡◌, ◌<◌, length, position};
ghost use Rattle.hb_base.specs.Ports.{ArePorts};
ghost use Rattle.hb_script.specs.Scripts;
ghost use Rattle.hb_script.specs.Scripts.{is_input_named, content_of};

use crate::buffer::port_at;
use crate::value::value_of;
use crate::words::next_word;
use hb_base::{Dir, List, Port, ScriptLine};

/// What a line of a script says: nothing, an input, or what no line of a script says.
#[derive(Clone, Copy, Debug, PartialEq, Eq)]
pub enum Content {
    Nothing,
    Input(ScriptLine),
    Wrong,
}

fn port_named(ports: &List<Port>, name: &[u8]) -> Option<usize>
    ensures { result ≡ position (is_input_named name.now) ports.now }
{
    ports.as_slice().iter().position(|port| matches!(port.dir, Dir::In)
        && port.name.as_slice() == name)
}

#[tactic(auto, unfolding(crate::specs::Scripts::input_at))]
fn input_at(ports: &List<Port>, number: u32, digits: &[u8]) -> Content
    requires ports { ArePorts ports.now }
    requires there { number < length ports.now }
    ensures { result ≡ Scripts.input_at ports.now number digits.now }
{
    let port = port_at(ports, number);
    match value_of(digits, port.width) {
        Some(value) => Content::Input(ScriptLine {
            port: number,
            value,
        }),
        None => Content::Wrong,
    }
}

#[tactic(auto, unfolding(crate::specs::Scripts::input_of))]
fn input_of(ports: &List<Port>, name: &[u8], digits: &[u8]) -> Content
    requires { ArePorts ports.now }
    ensures { result ≡ Scripts.input_of ports.now name.now digits.now }
{
    match port_named(ports, name) {
        Some(number) => input_at(ports, number as u32, digits),
        None => Content::Wrong,
    }
}

/// What this line says, without what ends it, at these ports.
#[tactic(auto, unfolding(crate::specs::Scripts::content_of))]
pub fn read_line(line: &[u8], ports: &List<Port>) -> Content
    requires { ArePorts ports.now }
    ensures { result ≡ content_of ports.now line.now }
{
    if let [b'#', ..] = line {
        return Content::Nothing;
    }
    let Some((name, rest)) = next_word(line) else {
        return Content::Nothing;
    };
    let Some((digits, rest)) = next_word(rest) else {
        return Content::Wrong;
    };
    match next_word(rest) {
        Some(_) => Content::Wrong,
        None => input_of(ports, name, digits),
    }
}
