ghost use Rattle.std.specs.Prelude.{◌≡◌};
ghost use Rattle.hb_top.specs.World.{shelved};
ghost use Rattle.hb_top.specs.Preparing.{steps_of};
ghost use Rattle.hb_top.specs.Steps.{FindsCommand, Prepares};

use crate::failure::Failure;
use crate::finding::{find_image, find_script};
use crate::starting::finish;
use hb_base::{List, Text};
use hb_io::Shelf;
use hb_mach::Machine;
use hb_words::{Command, read_words};
use std::alloc::Global;

/// A machine at the start of its run, and the most steps of the run.
#[derive(Drop)]
pub struct Prepared {
    pub machine: Machine,
    pub steps: u64,
}

fn find_command(alloc: Global, words: &List<Text>) -> Result<Command, Failure>
    ensures { FindsCommand words.now result }
{
    match read_words(alloc, words) {
        Ok(Some(command)) => Ok(command),
        Ok(None) => Err(Failure::Words),
        Err(_memory) => Err(Failure::Memory),
    }
}

fn steps_of(command: &Command) -> u64
    ensures { result ≡ steps_of command.now }
{
    match command {
        Command::Run(_, _, _, steps) => *steps,
        Command::Exec(_, _, steps) => *steps,
    }
}

/// All that comes before the run: reads the words, compiles or reads the image, reads the script, and writes the
/// compiled image.
pub fn prepare<F: Shelf>(
    alloc: Global,
    words: &List<Text>,
    shelf: &mut F,
) -> Result<Prepared, Failure>
    ensures { Prepares words.now (shelved (F.files shelf.old) (F.read_faults shelf.old) (F.write_faults shelf.old)) (shelved (F.files shelf.new) (F.read_faults shelf.new) (F.write_faults shelf.new)) result }
{
    let command = find_command(alloc, words)?;
    let image = find_image(alloc, shelf, &command)?;
    let script = find_script(alloc, shelf, &command, &image.ports)?;
    let machine = finish(alloc, shelf, &command, image, script)?;
    let steps = steps_of(&command);
    Ok(Prepared { machine, steps })
}
