//! Loops over `read` and `write`, since those of std say little once one call has failed.
use std::alloc::Global;
use std::io;
use std::io::{ErrorKind, Read, Write};

/// The size of the buffer through which bytes are read.
const CHUNK: usize = 4096;

/// The first `cap` bytes of what is left to read, or all of it. A read that gives nothing is the end.
pub(crate) fn read_front<F: Read>(file: &mut F, alloc: Global, cap: usize) -> io::Result<Vec<u8>> {
    let mut bytes = Vec::new(alloc);
    let mut chunk = [0u8; CHUNK];
    while bytes.len() < cap {
        let wanted = CHUNK.min(cap - bytes.len());
        let count = file.read(&mut chunk[..wanted])?;
        if count == 0 {
            break;
        }
        bytes.extend_from_slice(&chunk[..count])?;
    }
    Ok(bytes)
}

/// Writes all these bytes. A write that takes nothing of them is an error.
pub(crate) fn write_whole<W: Write>(to: &mut W, bytes: &[u8]) -> io::Result<()> {
    let mut rest = bytes;
    while !rest.is_empty() {
        let count = to.write(rest)?;
        if count == 0 {
            return Err(ErrorKind::WriteZero.into());
        }
        rest = &rest[count..];
    }
    Ok(())
}
