ghost use Rattle.std.specs.Prelude.{◌≡◌, ◌≤◌, ℕ, List, Option, OnOk, OnErr};
ghost use Rattle.hb_io.specs.Counts.{Rose};
ghost use Rattle.hb_io.specs.Taken.{appended, TookFront};

/// A sink did not take all the bytes that it was given.
#[derive(Clone, Copy, Debug, PartialEq, Eq)]
pub struct Failed;

/// A place to which bytes go. Contracts see the bytes taken so far, where the sink tells them, and a count of
/// faults, which stands still at 2^64 - 1.
pub trait Sink {
    ghost taken: { Self → Option (List ℕ) };

    ghost faults: { Self → ℕ };

    /// Takes these bytes after those it has. After `Failed` some first bytes of them were taken, maybe none.
    fn put(&mut self, bytes: &[u8]) -> Result<(), Failed>
        ensures ok { OnOk result (taken self.new ≡ appended (taken self.old) bytes.now) }
        ensures failed { OnErr result (TookFront (taken self.old) bytes.now (taken self.new)) }
        ensures fault { OnErr result (Rose (faults self.old) (faults self.new)) }
        ensures no_fault { OnOk result (faults self.new ≡ faults self.old) }
        ensures never_falls { faults self.old ≤ faults self.new };
}
