ghost use Rattle.std.specs.Prelude.{◌≡◌, None};

use crate::sink::{Failed, Sink};
use crate::transfer::write_whole;
use std::io;

/// The standard output. It tells contracts no content, since nobody can say what a terminal takes.
#[derive(Drop)]
pub struct StdSink<R: Print> {
    rt: R,
    faults: u64,
}

impl<R: Print> StdSink<R> {
    /// A sink over the standard output of this runtime.
    pub fn new(rt: R) -> StdSink<R>
        ensures faults { ⟦<StdSink<R> as Sink>⟧.faults result ≡ 0 }
    {
        StdSink { rt, faults: 0 }
    }
}

impl<R: Print> Sink for StdSink<R> {
    ghost taken = { λ _. None };

    ghost faults = { λ sink. sink.faults };

    /// Takes no memory.
    fn put(&mut self, bytes: &[u8]) -> Result<(), Failed> {
        match write_whole(&mut io::writer(&self.rt), bytes) {
            Ok(()) => Ok(()),
            Err(_) => {
                self.faults = self.faults.saturating_add(1);
                Err(Failed)
            }
        }
    }
}
