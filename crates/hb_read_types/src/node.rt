use hb_base::{Name, Place};

/// One form of a type or a predicate. Its parts stand before it in a list of nodes, the last of them right before it.
#[derive(Clone, Copy, Debug, PartialEq, Eq)]
pub enum TypeNode {
    /// A type constructor.
    Con(Place, Name),
    /// A type variable.
    Var(Place, Name),
    /// A number.
    Number(Place, u64),
    /// The type `()`.
    Unit(Place),
    /// A pair of the last two types.
    Pair(Place),
    /// The last type but one applied to the last.
    Apply(Place),
    /// The functions from the last type but one to the last.
    Arrow(Place),
    /// The sum of the last two types.
    Sum(Place),
    /// A class of so many types.
    Class(Place, Name, usize),
    /// `a + b = c` of the last three types.
    SumFact,
    /// `a * b = c` of the last three types.
    ProductFact,
    /// `2 ^ a = b` of the last two types.
    PowerFact,
    /// `a <= b` of the last two types.
    AtMostFact,
    /// So many predicates that stand together.
    Context(usize),
}
