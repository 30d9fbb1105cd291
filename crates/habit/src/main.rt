//! The program: the top call over real files and standard output.
#![tactic(auto)]

ghost use Rattle.std.specs.Prelude.{◌≡◌, [], ◌∷◌, ◌++◌, IfOk};
ghost use Rattle.hb_top.specs.World.{shelved, printed, world};
ghost use Rattle.habit.specs.Answering.{AnswersFor};

use hb_base::{List, Memory, Text};
use hb_io::{DirShelf, Shelf, Sink, StdSink};
use hb_top::habit;
use std::alloc::Global;
use std::env::{Env, FillError};
use std::process::ExitCode;

/// The status where there is no memory for the words.
const NO_MEMORY: u8 = 12;

/// The longest word that a system passes on is shorter.
const LONGEST_WORD: usize = 262_144;

/// Puts one more word, byte for byte, behind the others.
fn put_word(alloc: Global, words: &mut List<Text>, word: &[u8]) -> Result<(), Memory>
    ensures word { IfOk result (λ _. words.new ≡ words.old ++ word.now ∷ []) }
{
    let text = Text::of(Vec::from_slice(alloc, word)?);
    words.push(text)?;
    Ok(())
}

/// The words of the command line, byte for byte, without the program's own name.
fn words(alloc: Global, rt: &impl Env) -> Result<List<Text>, Memory> {
    let mut buffer = vec![in alloc; 0u8; LONGEST_WORD]?;
    let mut words = List::of(Vec::new(alloc));
    for place in 1..usize::MAX {
        match rt.arg(place, &mut buffer) {
            Ok(length) => {
                let Some(word) = buffer.get(..length) else {
                    return Err(Memory);
                };
                put_word(alloc, &mut words, word)?;
            }
            Err(FillError::NotPresent) => break,
            Err(FillError::TooLong) => return Err(Memory),
        }
    }
    Ok(words)
}

/// The status of the top call, or that of no memory for the words.
fn answer<F: Shelf, O: Sink>(
    alloc: Global,
    words: Result<List<Text>, Memory>,
    shelf: &mut F,
    out: &mut O,
) -> u8
    ensures { AnswersFor words result
        (world (shelved (F.files shelf.old) (F.read_faults shelf.old) (F.write_faults shelf.old)) (printed (O.taken out.old) (O.faults out.old)))
        (world (shelved (F.files shelf.new) (F.read_faults shelf.new) (F.write_faults shelf.new)) (printed (O.taken out.new) (O.faults out.new))) }
{
    match words {
        Ok(words) => habit(alloc, &words, shelf, out),
        Err(Memory) => NO_MEMORY,
    }
}

fn main(rt: HostRuntime) -> ExitCode {
    let alloc = rt.alloc();
    let words = words(alloc, &rt);
    let mut shelf = DirShelf::new(&rt);
    let mut out = StdSink::new(&rt);
    ExitCode::from(answer(alloc, words, &mut shelf, &mut out))
}
