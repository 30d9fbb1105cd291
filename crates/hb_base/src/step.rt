/// How a run ends. `Steps` says that the steps allowed were done without an end, and `Sink` that a line of
/// the trace could not be written; neither is an end of a machine.
#[derive(Clone, Copy, Debug, PartialEq, Eq)]
pub enum Stop {
    /// The program is done.
    Done,
    /// The program halted with this code.
    Halt(u32),
    /// The stack is used up.
    Stack,
    /// The port of this number was read, and the script had no line left for it.
    InputEnd(u32),
    /// The steps allowed were done.
    Steps,
    /// A word that codes no instruction, or an environment call that has no meaning.
    Illegal,
    /// An access or a jump at an address that its size does not divide.
    Misaligned,
    /// An access or a jump outside of what the machine has.
    Unmapped,
    /// A breakpoint.
    Break,
    /// A line of the trace could not be written.
    Sink,
}

/// What one step of a machine shows: nothing, a port's number with the value read or written, or the end.
#[derive(Clone, Copy, Debug, PartialEq, Eq)]
pub enum Step {
    Going,
    Read(u32, u32),
    Wrote(u32, u32),
    Ended(Stop),
}
