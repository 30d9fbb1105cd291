ghost use Rattle.std.specs.Prelude as prelude;
ghost use Rattle.std.specs.Prelude.{◌++◌, [], ◌∷◌, All, IfOk, IfErr, Ok};
ghost use Rattle.hb_base.specs.Ports.{ArePorts};
ghost use Rattle.hb_script.specs.Grammar.{Spells, IsFault};
ghost use Rattle.hb_base.specs.Inputs.{AreInputs};
ghost use Rattle.hb_script.specs.Scripts.{script_of, Gives};

use crate::content::{Content, read_line};
use crate::fault::ScriptError;
use crate::words::first_line;
use hb_base::limits::SCRIPT_BYTES;
use hb_base::{List, Port, Script, ScriptLine};
use std::alloc::Global;

#[tactic(auto, unfolding(crate::specs::Scripts::script_of))]
fn inputs_of(alloc: Global, bytes: &[u8], ports: &List<Port>) -> Result<Script, ScriptError>
    requires { ArePorts ports.now }
    ensures { Gives result (script_of ports.now bytes.now) }
{
    if bytes.len() > SCRIPT_BYTES as usize {
        return Err(ScriptError::Bad(0));
    }
    let mut inputs = Vec::new(alloc);
    let mut rest = bytes;
    let mut number: u32 = 1;
    while !rest.is_empty() {
        let (line, after) = first_line(rest);
        match read_line(line, ports) {
            Content::Nothing => {}
            Content::Input(input) => inputs.push(input)?,
            Content::Wrong => return Err(ScriptError::Bad(number)),
        }
        rest = after;
        number += 1;
    }
    Ok(Script {
        lines: List::of(inputs),
    })
}

/// The inputs that the bytes spell, a line each, at the ports of an image.
pub fn read(alloc: Global, bytes: &[u8], ports: &List<Port>) -> Result<Script, ScriptError>
    requires { ArePorts ports.now }
    // What is read is spelled so.
    ensures found { IfOk result (λ script. Spells ports.now bytes.now script.lines) }
    // Each input is one of an In port, and has its width.
    ensures inputs { IfOk result (λ script. AreInputs ports.now script.lines) }
    // What is spelled so is read, unless memory runs out.
    ensures only { (inputs : prelude.List ScriptLine) → Spells ports.now bytes.now inputs → Gives result (Ok inputs) }
    // The number of the first line that is none of a script, or 0 where the script is too long.
    ensures faults { IfErr result (IsFault ports.now bytes.now) }
    // The same as a function of the bytes.
    ensures exact { Gives result (script_of ports.now bytes.now) }
{
    inputs_of(alloc, bytes, ports)
}
