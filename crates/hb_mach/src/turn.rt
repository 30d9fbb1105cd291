/// How one turn of a run went.
#[derive(Clone, Copy, Debug, PartialEq, Eq)]
pub enum Turn {
    /// The run goes on.
    Goes,
    /// The machine has ended.
    Ends,
    /// The line could not be written.
    Fails,
}
