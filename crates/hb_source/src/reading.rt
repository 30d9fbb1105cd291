ghost use Rattle.std.specs.Prelude.{◌≤◌, ◌<◌, ◌^◌, ◌+◌, length};

use crate::nowhere::unplaced;
use crate::primitives::PRIMITIVES;
use hb_base::{Fault, Names};
use hb_front::{laid_tokens, read_program};
use hb_parser::parse;
use hb_resolved::Resolved;
use hb_scope::{PRELUDE, resolve};
use hb_tree::Program;
use std::alloc::Global;

/// A source behind the prelude, with its names resolved, and the signatures of the primitives, read with the same table of names.
#[derive(Drop)]
pub struct Source {
    pub tree: Resolved,
    pub primitives: Program,
}

/// The program that a text of the language's own spells, each of its places 0:0. New names go into the table.
fn read_own(alloc: Global, text: &[u8], names: &mut Names) -> Result<Program, Fault>
    requires few { length text.now ≤ 4096 }
    requires names { length names.old < 2 ^ 31 }
    ensures grows { length names.new ≤ length names.old + 4096 }
{
    let laid = laid_tokens(alloc, text, names)?;
    let tokens = unplaced(alloc, &laid)?;
    let program = parse(alloc, &tokens)?;
    Ok(program)
}

/// A source of at most 1 MiB behind the prelude, with its names resolved. A fault is the first of those of the text, the layout and the
/// grammar, and then of E06 to E09.
pub fn read_source(alloc: Global, bytes: &[u8]) -> Result<Source, Fault>
    requires few { length bytes.now ≤ 1048576 }
{
    let mut names = Names::new(alloc)?;
    let prelude = read_own(alloc, PRELUDE, &mut names)?;
    let primitives = read_own(alloc, PRIMITIVES, &mut names)?;
    let source = read_program(alloc, bytes, &mut names)?;
    let tree = resolve(alloc, names, prelude, source)?;
    Ok(Source { tree, primitives })
}
