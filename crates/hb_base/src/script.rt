use crate::list::List;

/// One input of a script: the number of a port in the image's list, from 0, and a value of the port's width.
#[derive(Clone, Copy, Debug, PartialEq, Eq)]
pub struct ScriptLine {
    pub port: u32,
    pub value: u32,
}

/// The inputs of a run, in the order in which they are taken.
#[derive(Debug, Drop)]
pub struct Script {
    pub lines: List<ScriptLine>,
}
