ghost use Rattle.std.specs.Prelude.{ℕ, List, IsTrue};
ghost use Rattle.hb_words.specs.Words.{Reads};
ghost use Rattle.hb_words.specs.declared.words.Command.TheVariants.{Run};
ghost use Rattle.hb_top.specs.Answers.{Answers};
ghost use Rattle.hb_top.specs.Headline.{TellsSource, is_run_status};
ghost use Rattle.hb_top.specs.World.{shelved, printed, world};

use crate::execute::execute;
use crate::prepare::prepare;
use crate::report::report;
use hb_base::{List as Items, Text};
use hb_io::{Shelf, Sink};
use std::alloc::Global;

/// Does what the words say, and answers the status with which the program ends. The words leave the program's own
/// name out.
///
/// `run FILE SCRIPT IMAGE` compiles the source in FILE, writes the image to IMAGE, runs that very image on the inputs
/// in SCRIPT, and puts a line for each port event and then the end. `exec IMAGE SCRIPT` runs the image in IMAGE so.
/// `--steps N` says how many instructions a run may do. `Answers` says of each status what was read, written and put.
pub fn habit<F: Shelf, O: Sink>(
    alloc: Global,
    words: &Items<Text>,
    shelf: &mut F,
    out: &mut O,
) -> u8
    // What each status says of what was read, written and put.
    ensures answers { Answers words.now result
        (world (shelved (F.files shelf.old) (F.read_faults shelf.old) (F.write_faults shelf.old)) (printed (O.taken out.old) (O.faults out.old)))
        (world (shelved (F.files shelf.new) (F.read_faults shelf.new) (F.write_faults shelf.new)) (printed (O.taken out.new) (O.faults out.new))) }
    // A run of a compiled source tells what the source says, and the image that means it was written.
    ensures headline { (file script name : List ℕ) (steps : ℕ) → Reads words.now (Run file script name steps) → IsTrue (is_run_status result) → TellsSource file script name steps result
        (world (shelved (F.files shelf.old) (F.read_faults shelf.old) (F.write_faults shelf.old)) (printed (O.taken out.old) (O.faults out.old)))
        (world (shelved (F.files shelf.new) (F.read_faults shelf.new) (F.write_faults shelf.new)) (printed (O.taken out.new) (O.faults out.new))) }
{
    match prepare(alloc, words, shelf) {
        Ok(prepared) => execute(prepared.machine, prepared.steps, out),
        Err(failure) => report(&failure, out),
    }
}
