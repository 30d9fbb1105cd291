/// A bit literal: its width in bits and its number.
#[derive(Clone, Copy, Debug, PartialEq, Eq)]
pub struct Width {
    pub width: u32,
    pub number: u128,
}
