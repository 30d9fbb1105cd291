ghost use Rattle.std.specs.Prelude.{◌≡◌};
ghost use Rattle.hb_top.specs.Executing.{TellsRun};
ghost use Rattle.hb_top.specs.Texts;
ghost use Rattle.hb_top.specs.World.{printed};

use crate::report::WRITE_FAULT;
use hb_base::Stop;
use hb_io::{Failed, Sink};
use hb_mach::Machine;
use hb_script::buffer::ROOM;
use hb_script::end_text;

/// The status of a run that ended so.
fn status_of(stop: Stop) -> u8
    ensures { result ≡ Texts.status_of stop }
{
    match stop {
        Stop::Done | Stop::Halt(0) => 0,
        Stop::Halt(_) => 6,
        Stop::Stack => 7,
        Stop::InputEnd(_) => 8,
        Stop::Steps => 9,
        Stop::Illegal | Stop::Misaligned | Stop::Unmapped | Stop::Break => 11,
        Stop::Sink => WRITE_FAULT,
    }
}

/// Runs the machine for so many steps or to its end, and puts a line for each port event and then the end.
pub fn execute<O: Sink>(mut machine: Machine, steps: u64, out: &mut O) -> u8
    ensures { TellsRun machine steps (printed (O.taken out.old) (O.faults out.old)) (printed (O.taken out.new) (O.faults out.new)) result }
{
    let stop = machine.run(steps, out);
    if let Stop::Sink = stop {
        return WRITE_FAULT;
    }
    let mut buffer = [0; ROOM];
    let length = end_text(stop, machine.done(), machine.ports(), &mut buffer);
    match out.put(&buffer[..length]) {
        Ok(()) => status_of(stop),
        Err(Failed) => WRITE_FAULT,
    }
}
