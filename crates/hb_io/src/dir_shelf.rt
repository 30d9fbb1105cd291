ghost use Rattle.std.specs.Prelude.{◌≡◌, None};

use crate::shelf::{Shelf, ShelfError};
use crate::transfer::{read_front, write_whole};
use std::alloc::Global;
use std::io::ErrorKind;
use std::rt::Files;
use std::{fs, io};

/// The files of the system, by their paths as given. It tells contracts no content, since nobody can say what a
/// real file holds.
#[derive(Drop)]
pub struct DirShelf<R: Files> {
    rt: R,
    read_faults: u64,
    write_faults: u64,
}

impl<R: Files> DirShelf<R> {
    /// A shelf over the files of this runtime.
    pub fn new(rt: R) -> DirShelf<R>
        ensures read_faults { ⟦<DirShelf<R> as Shelf>⟧.read_faults result ≡ 0 }
        ensures write_faults { ⟦<DirShelf<R> as Shelf>⟧.write_faults result ≡ 0 }
    {
        DirShelf {
            rt,
            read_faults: 0,
            write_faults: 0,
        }
    }
}

fn read_file<R: Files>(rt: &R, alloc: Global, name: &str, cap: usize) -> io::Result<Vec<u8>> {
    let mut file = fs::open(rt, name)?;
    read_front(&mut file, alloc, cap)
}

impl<R: Files> Shelf for DirShelf<R> {
    ghost files = { λ _. None };

    ghost read_faults = { λ shelf. shelf.read_faults };

    ghost write_faults = { λ shelf. shelf.write_faults };

    fn read(&mut self, alloc: Global, name: &str, cap: usize) -> Result<Vec<u8>, ShelfError> {
        match read_file(&self.rt, alloc, name, cap) {
            Ok(bytes) => Ok(bytes),
            Err(error) if error.kind() == ErrorKind::OutOfMemory => Err(ShelfError::Memory),
            Err(_) => {
                self.read_faults = self.read_faults.saturating_add(1);
                Err(ShelfError::Failed)
            }
        }
    }

    /// `Memory` comes only before the file was made or emptied.
    fn write(&mut self, name: &str, bytes: &[u8]) -> Result<(), ShelfError> {
        let done = match fs::create(&self.rt, name) {
            Ok(mut file) => write_whole(&mut file, bytes),
            Err(error) if error.kind() == ErrorKind::OutOfMemory => return Err(ShelfError::Memory),
            Err(error) => Err(error),
        };
        match done {
            Ok(()) => Ok(()),
            Err(_) => {
                self.write_faults = self.write_faults.saturating_add(1);
                Err(ShelfError::Failed)
            }
        }
    }
}
