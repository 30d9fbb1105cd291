ghost use Rattle.std.specs.Prelude.{◌≡◌, ◌⊎◌, OnOk, OnErr};
ghost use Rattle.hb_io.specs.Counts.{Rose};
ghost use Rattle.hb_io.specs.Taken.{appended, TookFront};
ghost use Rattle.hb_mach.specs.Running.{RanToLimit, RanToFault};
ghost use Rattle.hb_mach.specs.Turns.{Turned};
ghost use Rattle.hb_script.specs.Ends.{IsNamed};
ghost use Rattle.hb_script.specs.Lines.{line_of, IsShown};

use crate::machine::Machine;
use crate::turn::Turn;
use hb_base::{Step, Stop};
use hb_io::{Failed, Sink};
use hb_script::line_text;

impl Machine {
    fn put_line<O: Sink>(&self, step: Step, out: &mut O) -> Result<(), Failed>
        requires { IsShown self.now.ports step }
        ensures ok { OnOk result (O.taken out.new ≡ appended (O.taken out.old) (line_of self.now.ports step)) }
        ensures failed { OnErr result (TookFront (O.taken out.old) (line_of self.now.ports step) (O.taken out.new)) }
        ensures fault { OnErr result (Rose (O.faults out.old) (O.faults out.new)) }
        ensures no_fault { OnOk result (O.faults out.new ≡ O.faults out.old) }
    {
        let mut buffer = [0; 128];
        let len = line_text(step, &self.ports, &mut buffer);
        out.put(&buffer[..len])
    }

    /// Does one step, and puts its line.
    fn turn<O: Sink>(&mut self, out: &mut O) -> Turn
        ensures { Turned result self.old self.new (O.taken out.old) (O.taken out.new) (O.faults out.old) (O.faults out.new) }
    {
        let step = self.step();
        match step {
            Step::Going => Turn::Goes,
            Step::Ended(_) => Turn::Ends,
            Step::Read(_, _) | Step::Wrote(_, _) => match self.put_line(step, out) {
                Ok(()) => Turn::Goes,
                Err(Failed) => Turn::Fails,
            },
        }
    }

    /// Does at most this many steps, and puts a line for each port event. `Stop::Sink` comes exactly after a line
    /// that could not be written; the machine then stands after the step of that line. `Stop::Steps` says that all
    /// steps were done without an end. On a machine that has ended it answers that end.
    pub fn run<O: Sink>(&mut self, limit: u64, out: &mut O) -> Stop
        ensures run { RanToLimit limit self.old self.new result (O.taken out.old) (O.taken out.new) (O.faults out.old) (O.faults out.new)
            ⊎ RanToFault limit self.old self.new result (O.taken out.old) (O.taken out.new) (O.faults out.old) (O.faults out.new) }
        ensures named { IsNamed self.new.ports result }
    {
        for _step in 0..limit {
            match self.turn(out) {
                Turn::Goes => {}
                Turn::Ends => return self.stop(),
                Turn::Fails => return Stop::Sink,
            }
        }
        self.stop()
    }
}
