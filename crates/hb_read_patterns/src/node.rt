use hb_base::{Name, Place};

/// A node of a pattern, with its place. A pattern's nodes come in their order, parts before the whole, so each node
/// finds its parts on a stack.
#[derive(Clone, Copy, Debug, PartialEq, Eq)]
pub enum PatNode {
    /// Any value: `_`.
    Any(Place),
    /// A variable.
    Var(Place, Name),
    /// A number.
    Number(Place, u64),
    /// Bits: their width and their number.
    Bits(Place, u32, u128),
    /// A constructor, and the count of its patterns.
    Con(Place, Name, u32),
    /// A constructor with fields in square brackets, and the count of these.
    Fields(Place, Name, u32),
    /// The field of the pattern before it.
    Field(Place, Name),
    /// A pair of the two patterns before it.
    Pair(Place),
    /// The value `()`.
    Unit(Place),
    /// A row of simple patterns: the count of these before it.
    Row(u32),
}
