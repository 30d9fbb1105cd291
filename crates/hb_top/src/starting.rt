//! The machine at the start of a run, and the file of the image that it runs. From here on a run takes no memory.

ghost use Rattle.std.specs.Prelude.{◌≡◌, List, ℕ};
ghost use Rattle.std.specs.Str.{IsUtf8};
ghost use Rattle.hb_base.specs.Inputs.{AreInputs};
ghost use Rattle.hb_image.specs.Rules.{IsImage};
ghost use Rattle.hb_words.specs.Words.{HasNames};
ghost use Rattle.hb_top.specs.World.{shelved};
ghost use Rattle.hb_top.specs.Steps.{WritesFile, StartsMachine, StoresImage, Finishes};

use crate::failure::Failure;
use crate::finding::name_of;
use hb_base::Script;
use hb_image::Image;
use hb_io::{Shelf, ShelfError};
use hb_mach::Machine;
use hb_words::Command;
use std::alloc::Global;

/// Puts bytes under a name.
fn write_file<F: Shelf>(shelf: &mut F, name: &str, bytes: &[u8]) -> Result<(), Failure>
    ensures { WritesFile (shelved (F.files shelf.old) (F.read_faults shelf.old) (F.write_faults shelf.old)) (shelved (F.files shelf.new) (F.read_faults shelf.new) (F.write_faults shelf.new)) name.now bytes.now result }
{
    match shelf.write(name, bytes) {
        Ok(()) => Ok(()),
        Err(ShelfError::Failed) => Err(Failure::Write),
        Err(ShelfError::Memory) => Err(Failure::Memory),
    }
}

/// The machine at the start of the image's run.
fn load(alloc: Global, image: Image, script: Script) -> Result<Machine, Failure>
    requires image { IsImage image }
    requires script { AreInputs image.ports script.lines }
    ensures { StartsMachine image script.lines result }
{
    match Machine::load(alloc, image, script) {
        Ok(machine) => Ok(machine),
        Err(_memory) => Err(Failure::Memory),
    }
}

/// Loads the image, and then writes it.
fn store<F: Shelf>(
    alloc: Global,
    shelf: &mut F,
    name: &str,
    image: Image,
    script: Script,
) -> Result<Machine, Failure>
    requires image { IsImage image }
    requires script { AreInputs image.ports script.lines }
    ensures { StoresImage (shelved (F.files shelf.old) (F.read_faults shelf.old) (F.write_faults shelf.old)) (shelved (F.files shelf.new) (F.read_faults shelf.new) (F.write_faults shelf.new)) name.now image script.lines result }
{
    let Ok(bytes) = hb_image::write(alloc, &image) else {
        return Err(Failure::Memory);
    };
    let machine = load(alloc, image, script)?;
    write_file(shelf, name, bytes.as_slice())?;
    Ok(machine)
}

/// The machine of a command. A compiled image is written, once all memory is taken.
pub fn finish<F: Shelf>(
    alloc: Global,
    shelf: &mut F,
    command: &Command,
    image: Image,
    script: Script,
) -> Result<Machine, Failure>
    requires names { HasNames command.now }
    requires image { IsImage image }
    requires script { AreInputs image.ports script.lines }
    ensures { Finishes (shelved (F.files shelf.old) (F.read_faults shelf.old) (F.write_faults shelf.old)) (shelved (F.files shelf.new) (F.read_faults shelf.new) (F.write_faults shelf.new)) command.now image script.lines result }
{
    match command {
        Command::Run(_, _, name, _) => store(alloc, shelf, name_of(name), image, script),
        Command::Exec(_, _, _) => load(alloc, image, script),
    }
}
