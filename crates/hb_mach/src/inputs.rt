ghost use Rattle.std.specs.Prelude.{◌≡◌, ◌<◌, IfOk, MatchOption, length, is_some, if◌then◌else◌};
ghost use Rattle.hb_base.specs.Inputs.{first_value, without_first};
ghost use Rattle.hb_mach.specs.Waiting.{NoneBetween, IsFirstFrom};

use hb_base::limits::PORTS;
use hb_base::{List, Memory, ScriptLine};
use std::alloc::Global;
use std::marker::Model;

/// The lines not yet taken: all lines, and for each port the place from which on its lines wait.
#[derive(Debug, Drop)]
pub struct Inputs {
    lines: List<ScriptLine>,
    cursors: Vec<usize>,
}

impl Model for Inputs {
    ghost use Rattle.std.specs.Prelude.{◌≡◌, List, vec_len};
    ghost use Rattle.hb_base.specs.declared.script.ScriptLine.{ScriptLine};
    ghost use Rattle.hb_mach.specs.Waiting.{waiting};

    ghost Value = { List ScriptLine };

    ghost view = { λ inputs. waiting 0 inputs.lines inputs.cursors.items };

    ghost invariant = { λ inputs. vec_len inputs.cursors ≡ 256 };
}

/// The place of the port's first line from a place on.
#[tactic(auto, using(crate::proofs::WaitingLaws::search))]
fn first_from(lines: &[ScriptLine], from: usize, port: u32) -> Option<usize>
    ensures { MatchOption result (NoneBetween port lines.now from (length lines.now)) (λ place. IsFirstFrom port lines.now from place) }
{
    for place in from..lines.len() {
        if lines[place].port == port {
            return Some(place);
        }
    }
    None
}

impl Inputs {
    /// All these lines wait.
    pub fn of(alloc: Global, lines: List<ScriptLine>) -> Result<Inputs, Memory>
        ensures { IfOk result (λ inputs. inputs ≡ lines) }
    {
        let cursors = vec![in alloc; 0usize; PORTS as usize]?;
        Ok(Inputs { lines, cursors })
    }

    /// Takes the port's first line, and answers its value.
    #[tactic(auto, using(crate::proofs::WaitingLaws::taking))]
    pub fn take(&mut self, port: u32) -> Option<u32>
        requires { port < 256 }
        ensures value { result ≡ first_value port self.old }
        ensures rest { self.new ≡ (if is_some result then without_first port self.old else self.old) }
    {
        let lines = self.lines.as_slice();
        let from = self.cursors[port as usize];
        match first_from(lines, from, port) {
            None => None,
            Some(place) => {
                let value = lines[place].value;
                self.cursors[port as usize] = place + 1;
                Some(value)
            }
        }
    }
}
