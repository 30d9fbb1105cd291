//! What the files of a command hold. No file is changed.

ghost use Rattle.std.specs.Prelude.{◌≡◌, List, ℕ};
ghost use Rattle.std.specs.Str.{IsUtf8};
ghost use Rattle.hb_base.specs.Ports.{ArePorts};
ghost use Rattle.hb_words.specs.Words.{HasNames};
ghost use Rattle.hb_top.specs.World.{shelved};
ghost use Rattle.hb_top.specs.Preparing.{script_name};
ghost use Rattle.hb_top.specs.Steps.{ReadsFile, FindsSource, CompilesFile, FindsFile, FindsImage, FindsScript};

use crate::failure::Failure;
use crate::judging::{build, image_of, script_of, source_of};
use hb_base::{List as Items, Port, Script, Text};
use hb_image::Image;
use hb_io::{Shelf, ShelfError};
use hb_second::Source;
use hb_words::Command;
use std::alloc::Global;
use std::str;

/// As much of a source or of a script is read: one byte more than it may have.
const MOST_READ: usize = 1_048_577;

/// As much of an image is read: one byte more than the longest one has.
const MOST_OF_IMAGE: usize = 536_823_573;

/// The name of a file.
pub fn name_of(name: &Text) -> &str
    requires { IsUtf8 name.now }
    ensures { result.now ≡ name.now }
{
    str::from_utf8(name.as_slice()).unwrap()
}

/// The first bytes of a file.
fn read_file<F: Shelf>(
    alloc: Global,
    shelf: &mut F,
    name: &str,
    cap: usize,
) -> Result<Vec<u8>, Failure>
    ensures { ReadsFile (shelved (F.files shelf.old) (F.read_faults shelf.old) (F.write_faults shelf.old)) (shelved (F.files shelf.new) (F.read_faults shelf.new) (F.write_faults shelf.new)) name.now cap result }
{
    match shelf.read(alloc, name, cap) {
        Ok(bytes) => Ok(bytes),
        Err(ShelfError::Failed) => Err(Failure::Read),
        Err(ShelfError::Memory) => Err(Failure::Memory),
    }
}

/// The source that the file of this name holds.
fn find_source<F: Shelf>(alloc: Global, shelf: &mut F, name: &str) -> Result<Source, Failure>
    ensures { FindsSource (shelved (F.files shelf.old) (F.read_faults shelf.old) (F.write_faults shelf.old)) (shelved (F.files shelf.new) (F.read_faults shelf.new) (F.write_faults shelf.new)) name.now result }
{
    let bytes = read_file(alloc, shelf, name, MOST_READ)?;
    source_of(alloc, bytes.as_slice())
}

/// The image of the source that the file of this name holds.
fn compile_file<F: Shelf>(alloc: Global, shelf: &mut F, name: &str) -> Result<Image, Failure>
    ensures { CompilesFile (shelved (F.files shelf.old) (F.read_faults shelf.old) (F.write_faults shelf.old)) (shelved (F.files shelf.new) (F.read_faults shelf.new) (F.write_faults shelf.new)) name.now result }
{
    let source = find_source(alloc, shelf, name)?;
    build(alloc, &source)
}

/// The image that the file of this name spells.
fn find_file<F: Shelf>(alloc: Global, shelf: &mut F, name: &str) -> Result<Image, Failure>
    ensures { FindsFile (shelved (F.files shelf.old) (F.read_faults shelf.old) (F.write_faults shelf.old)) (shelved (F.files shelf.new) (F.read_faults shelf.new) (F.write_faults shelf.new)) name.now result }
{
    let bytes = read_file(alloc, shelf, name, MOST_OF_IMAGE)?;
    image_of(alloc, bytes.as_slice())
}

/// The image of a command: compiled from its source, or read from its file.
pub fn find_image<F: Shelf>(
    alloc: Global,
    shelf: &mut F,
    command: &Command,
) -> Result<Image, Failure>
    requires { HasNames command.now }
    ensures { FindsImage (shelved (F.files shelf.old) (F.read_faults shelf.old) (F.write_faults shelf.old)) (shelved (F.files shelf.new) (F.read_faults shelf.new) (F.write_faults shelf.new)) command.now result }
{
    match command {
        Command::Run(file, _, _, _) => compile_file(alloc, shelf, name_of(file)),
        Command::Exec(image, _, _) => find_file(alloc, shelf, name_of(image)),
    }
}

/// The inputs in the file of this name.
fn read_script<F: Shelf>(
    alloc: Global,
    shelf: &mut F,
    name: &str,
    ports: &Items<Port>,
) -> Result<Script, Failure>
    requires { ArePorts ports.now }
    ensures { FindsScript (shelved (F.files shelf.old) (F.read_faults shelf.old) (F.write_faults shelf.old)) (shelved (F.files shelf.new) (F.read_faults shelf.new) (F.write_faults shelf.new)) name.now ports.now result }
{
    let bytes = read_file(alloc, shelf, name, MOST_READ)?;
    script_of(alloc, bytes.as_slice(), ports)
}

/// The inputs of a command.
pub fn find_script<F: Shelf>(
    alloc: Global,
    shelf: &mut F,
    command: &Command,
    ports: &Items<Port>,
) -> Result<Script, Failure>
    requires names { HasNames command.now }
    requires ports { ArePorts ports.now }
    ensures { FindsScript (shelved (F.files shelf.old) (F.read_faults shelf.old) (F.write_faults shelf.old)) (shelved (F.files shelf.new) (F.read_faults shelf.new) (F.write_faults shelf.new)) (script_name command.now) ports.now result }
{
    match command {
        Command::Run(_, script, _, _) => read_script(alloc, shelf, name_of(script), ports),
        Command::Exec(_, script, _) => read_script(alloc, shelf, name_of(script), ports),
    }
}
