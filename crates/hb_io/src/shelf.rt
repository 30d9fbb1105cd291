ghost use Rattle.std.specs.Prelude.{◌≡◌, ◌≤◌, ℕ, Option, OnOk, IfOk};
ghost use Rattle.hb_io.specs.Answers.{OnFailed, UnlessFailed, OnMemory};
ghost use Rattle.hb_io.specs.Counts.{Rose};
ghost use Rattle.hb_io.specs.Files.{Files, written, without, HoldsFront};

use std::alloc::Global;
use thiserror::Error;

/// Why a shelf did not do what it was asked.
#[derive(Clone, Copy, Debug, PartialEq, Eq, Error)]
pub enum ShelfError {
    /// There is no file of that name, or it could not be read or written.
    #[error("the file could not be read or written")]
    Failed,
    /// There was no memory for the answer.
    #[error("out of memory")]
    Memory,
}

/// Files by name. Contracts see the files as one finite map, where the shelf tells them, and two counts of
/// faults, which stand still at 2^64 - 1.
pub trait Shelf {
    ghost files: { Self → Option Files };

    ghost read_faults: { Self → ℕ };

    ghost write_faults: { Self → ℕ };

    /// The first `cap` bytes of the named file, or all of it where it is shorter. A missing name is a fault.
    fn read(&mut self, alloc: Global, name: &str, cap: usize) -> Result<Vec<u8>, ShelfError>
        ensures unchanged { files self.new ≡ files self.old }
        ensures front { IfOk result (λ bytes. HoldsFront (files self.old) name.now cap bytes.items) }
        ensures fault { OnFailed result (Rose (read_faults self.old) (read_faults self.new)) }
        ensures no_fault { UnlessFailed result (read_faults self.new ≡ read_faults self.old) }
        ensures never_falls { read_faults self.old ≤ read_faults self.new }
        ensures no_write { write_faults self.new ≡ write_faults self.old };

    /// Makes the named file hold just these bytes. After `Failed` nothing is told of that file; after `Memory` it
    /// is as it was.
    fn write(&mut self, name: &str, bytes: &[u8]) -> Result<(), ShelfError>
        ensures ok { OnOk result (files self.new ≡ written (files self.old) name.now bytes.now) }
        ensures others { without (files self.new) name.now ≡ without (files self.old) name.now }
        ensures memory { OnMemory result (files self.new ≡ files self.old) }
        ensures fault { OnFailed result (Rose (write_faults self.old) (write_faults self.new)) }
        ensures no_fault { UnlessFailed result (write_faults self.new ≡ write_faults self.old) }
        ensures never_falls { write_faults self.old ≤ write_faults self.new }
        ensures no_read { read_faults self.new ≡ read_faults self.old };
}
