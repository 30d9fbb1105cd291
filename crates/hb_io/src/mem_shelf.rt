ghost use Rattle.std.specs.Prelude.{◌≡◌, ◌≤◌, true, false, Some, None, OnOk, OnErr, IfOk};
ghost use Rattle.std.specs.Option.{option_copied};
ghost use Rattle.std.specs.FinMap as map;
ghost use Rattle.hb_io.specs.Answers.{OnFailed, UnlessFailed, OnMemory};
ghost use Rattle.hb_io.specs.Counts.{Rose};
ghost use Rattle.hb_io.specs.FakeShelf.{empty_shelf, with_file, fails, reads, after_read, after_write};
ghost use Rattle.hb_io.specs.StoredFiles.{files_of};
ghost use Rattle.hb_io.specs.Files.{written, without, HoldsFront};

use crate::shelf::{Shelf, ShelfError};
use std::alloc::{AllocError, Global};
use std::collections::BTreeMap;
use std::marker::Model;

/// A shelf in memory, some of whose reads and writes fail.
#[derive(Debug, Drop)]
pub struct MemShelf {
    files: BTreeMap<String, Vec<u8>>,
    failing: Vec<u64>,
    calls: u64,
    read_faults: u64,
    write_faults: u64,
    alloc: Global,
}

impl Model for MemShelf {
    ghost use Rattle.hb_io.specs.FakeShelf.{FakeShelf, fake_shelf_code};

    ghost Value = { FakeShelf };

    ghost coded = { fake_shelf_code };

    ghost use Rattle.hb_io.specs.StoredFiles.{files_of};

    ghost view = { λ s. record {
      files = files_of s.files;
      failing = s.failing.items;
      calls = s.calls;
      read_faults = s.read_faults;
      write_faults = s.write_faults;
    } };
}

impl MemShelf {
    /// A shelf without files. The k-th call of `read` and `write` together fails, counted from 1, where k is in
    /// `failing`.
    pub fn new(alloc: Global, failing: &[u64]) -> Result<MemShelf, AllocError>
        ensures { IfOk result (λ shelf. shelf ≡ empty_shelf failing.now) }
    {
        Ok(MemShelf {
            files: BTreeMap::new(alloc),
            failing: Vec::from_slice(alloc, failing)?,
            calls: 0,
            read_faults: 0,
            write_faults: 0,
            alloc,
        })
    }

    /// Puts a file on the shelf, in the place of one of that name. It counts as no call.
    pub fn add(&mut self, name: &str, bytes: &[u8]) -> Result<(), AllocError>
        ensures ok { OnOk result (self.new ≡ with_file self.old name.now bytes.now) }
        ensures err { OnErr result (self.new ≡ self.old) }
    {
        let name = String::from_str(self.alloc, name)?;
        let bytes = Vec::from_slice(self.alloc, bytes)?;
        self.files.insert(name, bytes)?;
        Ok(())
    }

    /// What the named file holds, or `None` where there is no such file. Takes no memory.
    pub fn file(&self, name: &str) -> Option<&[u8]>
        ensures { option_copied result ≡ map.get self.now.files name.now }
    {
        find(&self.files, name)
    }
}

/// What the named file holds, or `None` where there is no such file.
fn find<'a>(files: &'a BTreeMap<String, Vec<u8>>, name: &str) -> Option<&'a [u8]>
    ensures { option_copied result ≡ map.get (files_of files.now) name.now }
{
    match files.get(name) {
        Some(bytes) => Some(bytes.as_slice()),
        None => None,
    }
}

impl Shelf for MemShelf {
    ghost files = { λ shelf. Some shelf.files };

    ghost read_faults = { λ shelf. shelf.read_faults };

    ghost write_faults = { λ shelf. shelf.write_faults };

    fn read(&mut self, alloc: Global, name: &str, cap: usize) -> Result<Vec<u8>, ShelfError>
        ensures after { self.new ≡ after_read self.old result }
        ensures answer { IfOk result (λ bytes. reads self.old name.now cap ≡ Some bytes.items) }
        ensures refusal { OnFailed result (reads self.old name.now cap ≡ None) }
        ensures unchanged { Some self.new.files ≡ Some self.old.files }
        ensures front { IfOk result (λ bytes. HoldsFront (Some self.old.files) name.now cap bytes.items) }
        ensures fault { OnFailed result (Rose self.old.read_faults self.new.read_faults) }
        ensures no_fault { UnlessFailed result (self.new.read_faults ≡ self.old.read_faults) }
        ensures never_falls { self.old.read_faults ≤ self.new.read_faults }
        ensures no_write { self.new.write_faults ≡ self.old.write_faults }
    {
        self.calls = self.calls.saturating_add(1);
        if self.failing.contains(&self.calls) {
            self.read_faults = self.read_faults.saturating_add(1);
            return Err(ShelfError::Failed);
        }
        let Some(bytes) = find(&self.files, name) else {
            self.read_faults = self.read_faults.saturating_add(1);
            return Err(ShelfError::Failed);
        };
        match Vec::from_slice(alloc, &bytes[..cap.min(bytes.len())]) {
            Ok(front) => Ok(front),
            Err(_) => Err(ShelfError::Memory),
        }
    }

    /// A write that fails changes nothing.
    fn write(&mut self, name: &str, bytes: &[u8]) -> Result<(), ShelfError>
        ensures after { self.new ≡ after_write self.old name.now bytes.now result }
        ensures done { OnOk result (fails self.old ≡ false) }
        ensures refusal { OnFailed result (fails self.old ≡ true) }
        ensures ok { OnOk result (Some self.new.files ≡ written (Some self.old.files) name.now bytes.now) }
        ensures others { without (Some self.new.files) name.now ≡ without (Some self.old.files) name.now }
        ensures memory { OnMemory result (Some self.new.files ≡ Some self.old.files) }
        ensures fault { OnFailed result (Rose self.old.write_faults self.new.write_faults) }
        ensures no_fault { UnlessFailed result (self.new.write_faults ≡ self.old.write_faults) }
        ensures never_falls { self.old.write_faults ≤ self.new.write_faults }
        ensures no_read { self.new.read_faults ≡ self.old.read_faults }
    {
        self.calls = self.calls.saturating_add(1);
        if self.failing.contains(&self.calls) {
            self.write_faults = self.write_faults.saturating_add(1);
            return Err(ShelfError::Failed);
        }
        match self.add(name, bytes) {
            Ok(()) => Ok(()),
            Err(_) => Err(ShelfError::Memory),
        }
    }
}
