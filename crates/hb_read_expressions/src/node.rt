use hb_base::{Name, Place};
use hb_read_patterns::PatNode;

/// A node of an expression, with its place. The nodes come in their order, parts before the whole, so each node finds its
/// parts on a stack. A count tells how many parts there are of a kind.
#[derive(Clone, Copy, Debug, PartialEq, Eq)]
pub enum ExprNode {
    /// A variable, or an operator between operands.
    Var(Place, Name),
    /// A constructor.
    Con(Place, Name),
    /// A number.
    Number(Place, u64),
    /// Bits: their width and their number.
    Bits(Place, u32, u128),
    /// The value `()`.
    Unit(Place),
    /// The application of the one before the last expression to the last one.
    Apply(Place),
    /// Operands with this many operators between them.
    Run(Place, u32),
    /// A lambda: the count of its patterns, which come before its body.
    Lambda(Place, u32),
    /// Local rows, as many as the count, and an expression.
    Let(Place, u32),
    /// Three expressions.
    If(Place),
    /// An expression and its alternatives.
    Case(Place, u32),
    /// The statements, as many as the count.
    Do(Place, u32),
    /// The field of the expression before it.
    Select(Place, Name),
    /// The name of a field, after its value.
    Field(Place, Name),
    /// The constructor and the count of its fields.
    Build(Place, Name, u32),
    /// An expression and the count of the fields that are changed in it.
    Update(Place, u32),
    /// A pair of the two expressions before it.
    Pair(Place),
    /// A node of a pattern.
    Pat(PatNode),
    /// A pattern and an expression are an alternative.
    Alternative,
    /// A pattern and an expression are a statement `pattern <- expression`.
    TakeStmt,
    /// Local rows, as many as the count, are a statement.
    LetStmt(u32),
    /// An expression is a statement.
    DoStmt,
    /// A row: its name and place, the count of its patterns, the first token of its body, and the count of its local rows.
    /// Its patterns, its body and its local rows come before it.
    Row(Name, Place, u32, Place, u32),
}
