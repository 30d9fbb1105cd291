/// One letter of a spelling.
#[derive(Clone, Copy, Debug, PartialEq, Eq)]
pub enum Letter {
    /// A constructor, by its number in the order of declaration.
    Con(u32),
    /// A bit of a word.
    Bit(bool),
    /// The number of an index.
    Index(u64),
    /// The one letter of a type that cannot be taken apart.
    Opaque,
}
