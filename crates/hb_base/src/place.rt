/// A place in a source: lines and columns count from 1. The prelude's places are 0:0.
#[derive(Clone, Copy, Debug, PartialEq, Eq)]
pub struct Place {
    pub line: u32,
    pub col: u32,
}
