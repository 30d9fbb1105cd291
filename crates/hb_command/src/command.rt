ghost use Rattle.std.specs.Prelude.{◌≡◌, IfOk, MatchOption, IsTrue, ◌↔◌, unwrap_or};
ghost use Rattle.std.specs.Str.{IsUtf8};
ghost use Rattle.hb_command.specs.Commands;
ghost use Rattle.hb_command.specs.Commands.{run_of, build_of, exec_of, sample_of, named_command, command_of, HasNames, Reads};
ghost use Rattle.hb_command.specs.declared.command.Command.{Command};

use crate::number::{sample_number, stack_of};
use crate::reading::{Reading, is_said};
use crate::rest::{Rest, copy_of, rest_of};
use hb_base::limits::STANDARD_STEPS;
use hb_base::{List, Memory, Text};
use std::alloc::Global;
use std::str;

/// What the words ask for, with the names of files.
#[derive(Debug, Drop)]
pub enum Command {
    /// Compiles the source of the first name, writes the image to the third, and runs it on the script of the second.
    /// The numbers are the most steps and the bytes of the stack; a map is put where it is asked for.
    Run(Text, Text, Text, u64, u32, bool),
    /// Compiles the source of the first name and writes the image to the second. The number is the bytes of the stack;
    /// a map is put where it is asked for.
    Build(Text, Text, u32, bool),
    /// Runs the image of the first name on the script of the second. The number is the most steps.
    Exec(Text, Text, u64),
    /// Writes the sample of this number, 1 to 3,000, to the first name; with a second one it is compiled and run too,
    /// and its image goes there.
    Sample(u32, Text, Option<Text>),
}

fn run_of(alloc: Global, reading: Reading, names: &[Text]) -> Result<Option<Command>, Memory>
    ensures { IfOk result (λ command. command ≡ run_of reading names.now) }
{
    let [file, script, image] = names else {
        return Ok(None);
    };
    let Some(stack) = stack_of(reading.stack) else {
        return Ok(None);
    };
    let steps = reading.steps.unwrap_or(STANDARD_STEPS);
    let file = copy_of(alloc, file)?;
    let script = copy_of(alloc, script)?;
    let image = copy_of(alloc, image)?;
    Ok(Some(Command::Run(file, script, image, steps, stack, reading.map)))
}

fn build_of(alloc: Global, reading: Reading, names: &[Text]) -> Result<Option<Command>, Memory>
    ensures { IfOk result (λ command. command ≡ build_of reading names.now) }
{
    let [file, image] = names else {
        return Ok(None);
    };
    if is_said(reading.steps) {
        return Ok(None);
    }
    let Some(stack) = stack_of(reading.stack) else {
        return Ok(None);
    };
    let file = copy_of(alloc, file)?;
    let image = copy_of(alloc, image)?;
    Ok(Some(Command::Build(file, image, stack, reading.map)))
}

fn exec_of(alloc: Global, reading: Reading, names: &[Text]) -> Result<Option<Command>, Memory>
    ensures { IfOk result (λ command. command ≡ exec_of reading names.now) }
{
    let [image, script] = names else {
        return Ok(None);
    };
    if is_said(reading.stack) {
        return Ok(None);
    }
    if reading.map {
        return Ok(None);
    }
    let steps = reading.steps.unwrap_or(STANDARD_STEPS);
    let image = copy_of(alloc, image)?;
    let script = copy_of(alloc, script)?;
    Ok(Some(Command::Exec(image, script, steps)))
}

fn sample_alone(alloc: Global, number: u32, file: &Text) -> Result<Option<Command>, Memory>
    ensures { IfOk result (λ command. command ≡ Commands.sample_alone number file.now) }
{
    let file = copy_of(alloc, file)?;
    Ok(Some(Command::Sample(number, file, None)))
}

fn sample_with(
    alloc: Global,
    number: u32,
    file: &Text,
    image: &Text,
) -> Result<Option<Command>, Memory>
    ensures { IfOk result (λ command. command ≡ Commands.sample_with number file.now image.now) }
{
    let file = copy_of(alloc, file)?;
    let image = copy_of(alloc, image)?;
    Ok(Some(Command::Sample(number, file, Some(image))))
}

fn numbered_sample(alloc: Global, number: u32, files: &[Text]) -> Result<Option<Command>, Memory>
    ensures { IfOk result (λ command. command ≡ Commands.numbered_sample number files.now) }
{
    match files {
        [file] => {
            let command = sample_alone(alloc, number, file)?;
            Ok(command)
        }
        [file, image] => {
            let command = sample_with(alloc, number, file, image)?;
            Ok(command)
        }
        _ => Ok(None),
    }
}

fn sample_of(alloc: Global, reading: Reading, names: &[Text]) -> Result<Option<Command>, Memory>
    ensures { IfOk result (λ command. command ≡ sample_of reading names.now) }
{
    if !reading.is_bare() {
        return Ok(None);
    }
    let Some((number, files)) = names.split_first() else {
        return Ok(None);
    };
    let Some(number) = sample_number(number.as_slice()) else {
        return Ok(None);
    };
    let command = numbered_sample(alloc, number, files)?;
    Ok(command)
}

/// `exec` or `sample`.
fn other_command(alloc: Global, word: &[u8], rest: &Rest) -> Result<Option<Command>, Memory>
    ensures { IfOk result (λ command. command ≡ Commands.other_command word.now rest.now) }
{
    let names = rest.names.as_slice();
    if word == b"exec".as_slice() {
        let command = exec_of(alloc, rest.reading, names)?;
        Ok(command)
    } else if word == b"sample".as_slice() {
        let command = sample_of(alloc, rest.reading, names)?;
        Ok(command)
    } else {
        Ok(None)
    }
}

fn named_command(alloc: Global, word: &[u8], rest: &Rest) -> Result<Option<Command>, Memory>
    ensures { IfOk result (λ command. command ≡ named_command word.now rest.now) }
{
    let names = rest.names.as_slice();
    if word == b"run".as_slice() {
        let command = run_of(alloc, rest.reading, names)?;
        Ok(command)
    } else if word == b"build".as_slice() {
        let command = build_of(alloc, rest.reading, names)?;
        Ok(command)
    } else {
        let command = other_command(alloc, word, rest)?;
        Ok(command)
    }
}

fn command_of(alloc: Global, words: &[Text]) -> Result<Option<Command>, Memory>
    ensures { IfOk result (λ command. command ≡ command_of words.now) }
{
    let Some((word, others)) = words.split_first() else {
        return Ok(None);
    };
    let Some(rest) = rest_of(alloc, others)? else {
        return Ok(None);
    };
    let command = named_command(alloc, word.as_slice(), &rest)?;
    Ok(command)
}

fn is_utf8(name: &Text) -> bool
    ensures { IsTrue result ↔ IsUtf8 name.now }
{
    str::from_utf8(name.as_slice()).is_ok()
}

fn has_names(command: &Command) -> bool
    ensures { IsTrue result ↔ HasNames command.now }
{
    match command {
        Command::Run(file, script, image, _, _, _) => is_utf8(file)
            && is_utf8(script)
            && is_utf8(image),
        Command::Build(file, image, _, _) => is_utf8(file) && is_utf8(image),
        Command::Exec(image, script, _) => is_utf8(image) && is_utf8(script),
        Command::Sample(_, file, None) => is_utf8(file),
        Command::Sample(_, file, Some(image)) => is_utf8(file) && is_utf8(image),
    }
}

/// The command that these words are: `run FILE SCRIPT IMAGE` with `--steps`, `--stack` and `--map`, `build FILE IMAGE`
/// with `--stack` and `--map`, `exec IMAGE SCRIPT` with `--steps`, or `sample NUMBER FILE` and perhaps `IMAGE` with no
/// option. Options stand anywhere after the first word, each at most once, one with a number as `--steps N` or
/// `--steps=N`. After `--` each word is positional. Steps are below 2^64, and 100,000,000 where none are said; a stack
/// has 4,096 to 16,777,216 bytes, and 1,048,576 where none is said; a sample has a number from 1 to 3,000. Nothing
/// where the words are no command, or one of them is not UTF-8.
///
/// # Errors
///
/// `Memory` where there is no room for the names.
pub fn read_command(alloc: Global, words: &List<Text>) -> Result<Option<Command>, Memory>
    ensures found { IfOk result (λ command. MatchOption command ((command : Command) → Reads words.now command → ⊥) (λ command. Reads words.now command)) }
{
    let Some(command) = command_of(alloc, words.as_slice())? else {
        return Ok(None);
    };
    if !has_names(&command) {
        return Ok(None);
    }
    Ok(Some(command))
}
