//! Counts the laid-out tokens of a source, to measure the text front: `front_tokens FILE`. The status is 1 where the
//! source is refused, and 2 where it cannot be read.
#![tactic(auto)]

ghost use Rattle.std.specs.Prelude.{IfOk};
ghost use Rattle.front_tokens.specs.Counting.{Counts};

use hb_base::limits::SOURCE_BYTES;
use hb_base::{Fault, Names};
use hb_front::laid_tokens;
use hb_io::{DirShelf, Shelf, Sink, StdSink};
use std::alloc::Global;
use std::env::Env;
use std::process::ExitCode;

/// The longest name of a file.
const LONGEST_NAME: usize = 4096;

/// The source is refused.
const REFUSED: u8 = 1;

/// The source cannot be read, or memory ran out.
const UNREAD: u8 = 2;

/// The bytes of the file that the first word names.
fn source(alloc: Global, rt: &impl Env, shelf: &mut impl Shelf) -> Option<Vec<u8>> {
    let mut buffer = vec![in alloc; 0u8; LONGEST_NAME].ok()?;
    let length = rt.arg(1, &mut buffer).ok()?;
    let name = str::from_utf8(buffer.get(..length)?).ok()?;
    shelf.read(alloc, name, SOURCE_BYTES as usize + 1).ok()
}

/// The number of laid-out tokens, or the status.
fn count(alloc: Global, source: &[u8]) -> Result<usize, u8>
    ensures counted { IfOk result (Counts source.now) }
{
    if source.len() > SOURCE_BYTES as usize {
        return Err(REFUSED);
    }
    let mut names = Names::new(alloc).map_err(|_memory| UNREAD)?;
    match laid_tokens(alloc, source, &mut names) {
        Ok(tokens) => Ok(tokens.list.len()),
        Err(Fault::Refused(_)) => Err(REFUSED),
        Err(Fault::Memory) => Err(UNREAD),
    }
}

fn main(rt: HostRuntime) -> ExitCode {
    let alloc = rt.alloc();
    let mut shelf = DirShelf::new(&rt);
    let mut out = StdSink::new(&rt);
    let Some(source) = source(alloc, &rt, &mut shelf) else {
        return ExitCode::from(UNREAD);
    };
    match count(alloc, source.as_slice()) {
        Ok(count) => {
            let Ok(line) = format!(in alloc; "tokens {count}\n") else {
                return ExitCode::from(UNREAD);
            };
            match out.put(line.as_bytes()) {
                Ok(()) => ExitCode::from(0),
                Err(_) => ExitCode::from(UNREAD),
            }
        }
        Err(status) => ExitCode::from(status),
    }
}
