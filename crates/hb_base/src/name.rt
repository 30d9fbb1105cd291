/// A name of a program: its place in the table of names, from 0.
#[derive(Clone, Copy, Debug, PartialEq, Eq)]
pub struct Name(pub u32);
