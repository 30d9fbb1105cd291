ghost use Rattle.std.specs.Prelude.{◌≡◌, ◌≤◌, length, Some, OnOk, OnErr, IfOk, is_err};
ghost use Rattle.hb_io.specs.Counts.{Rose};
ghost use Rattle.hb_io.specs.FakeSink.{empty_sink, after_put, refuses};
ghost use Rattle.hb_io.specs.Taken.{appended, TookFront};

use crate::sink::{Failed, Sink};
use std::alloc::{AllocError, Global};
use std::marker::Model;

/// A sink in memory with room for so many bytes, some of whose puts fail.
#[derive(Debug, Drop)]
pub struct MemSink {
    bytes: Vec<u8>,
    space: usize,
    failing: Vec<u64>,
    puts: u64,
    faults: u64,
}

impl Model for MemSink {
    ghost use Rattle.std.specs.Prelude.{◌≤◌, length, vec_capacity};
    ghost use Rattle.hb_io.specs.FakeSink.{FakeSink};

    ghost Value = { FakeSink };

    ghost view = { λ s. record {
      bytes = s.bytes.items;
      space = s.space;
      failing = s.failing.items;
      puts = s.puts;
      faults = s.faults;
    } };

    ghost invariant = { λ s. (length s.bytes.items ≤ s.space) × (s.space ≤ vec_capacity s.bytes) };
}

impl MemSink {
    /// An empty sink with room for `space` bytes. Its k-th put fails, counted from 1, where k is in `failing`.
    pub fn new(alloc: Global, space: usize, failing: &[u64]) -> Result<MemSink, AllocError>
        ensures { IfOk result (λ sink. sink ≡ empty_sink space failing.now) }
    {
        Ok(MemSink {
            bytes: Vec::with_capacity(alloc, space)?,
            space,
            failing: Vec::from_slice(alloc, failing)?,
            puts: 0,
            faults: 0,
        })
    }

    /// All bytes taken so far. Takes no memory.
    pub fn bytes(&self) -> &[u8]
        ensures { result.now ≡ self.now.bytes }
    {
        self.bytes.as_slice()
    }
}

impl Sink for MemSink {
    ghost taken = { λ sink. Some sink.bytes };

    ghost faults = { λ sink. sink.faults };

    /// Takes no memory. A put that is to fail takes the first half of its bytes, rounded down, or as many of
    /// these as fit; any other takes all of them, or as many as fit, and then it fails too.
    fn put(&mut self, bytes: &[u8]) -> Result<(), Failed>
        ensures after { self.new ≡ after_put self.old bytes.now }
        ensures answer { is_err result ≡ refuses self.old (length bytes.now) }
        ensures ok { OnOk result (Some self.new.bytes ≡ appended (Some self.old.bytes) bytes.now) }
        ensures failed { OnErr result (TookFront (Some self.old.bytes) bytes.now (Some self.new.bytes)) }
        ensures fault { OnErr result (Rose self.old.faults self.new.faults) }
        ensures no_fault { OnOk result (self.new.faults ≡ self.old.faults) }
        ensures never_falls { self.old.faults ≤ self.new.faults }
    {
        self.puts = self.puts.saturating_add(1);
        let fails = self.failing.contains(&self.puts);
        let room = self.space - self.bytes.len();
        let wanted = if fails { bytes.len() / 2 } else { bytes.len() };
        self.bytes
            .extend_from_slice(&bytes[..wanted.min(room)])
            .unwrap();
        if fails || bytes.len() > room {
            self.faults = self.faults.saturating_add(1);
            return Err(Failed);
        }
        Ok(())
    }
}
