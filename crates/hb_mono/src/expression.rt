use crate::pattern::{At, Pat};
use hb_base::List;

/// The bits of a field: so many, from a place on that counts from the least bit.
#[derive(Clone, Copy, Debug, PartialEq, Eq)]
pub struct Bits {
    pub at: u32,
    pub width: u32,
}

/// What a function or an action that is made inside of a body captures: a local of the body, or a function of the binding group to
/// which the body belongs, made anew from what the body itself has captured.
#[derive(Clone, Copy, Debug, PartialEq, Eq)]
pub enum Capture {
    Local(u32),
    Sibling(u32),
}

/// An expression at its node.
#[cycle(expressions)]
#[derive(Debug, Drop)]
pub struct Expr {
    pub at: At,
    pub form: ExprForm,
}

/// The form of an expression.
#[cycle(expressions)]
#[derive(Debug, Drop)]
pub enum ExprForm {
    /// A local of the body: captured ones come first, then the parameters, then the others.
    Local(u32),
    /// A function of the binding group to which the body belongs, by its body: made from what this body has captured.
    Sibling(u32),
    /// A top-level definition or a method, by its instance.
    Top(u32),
    /// An area and a port, by their numbers in text order.
    Area(u32),
    Port(u32),
    /// A primitive by its number, with the ground types that it is taken at and the numbers that it rests on.
    Primitive(u32, List<usize>, List<u64>),
    /// A constructor of a data type, by its number among all constructors.
    Con(u32),
    Number(u128),
    Apply(Box<Expr>, Box<Expr>),
    /// A lambda, a `do` or a local function: its body, and what it captures.
    Inner(u32, List<Capture>),
    Let(List<Binding>, Box<Expr>),
    Case(List<Expr>, List<Row>),
    If(Box<Expr>, Box<Expr>, Box<Expr>),
    /// The bits of a field of a bitdata value.
    Select(Box<Expr>, Bits),
    /// The reference to a field of a struct: so many bytes on.
    FieldRef(Box<Expr>, u32),
    /// A bitdata value: its fixed bits as a word, and its fields.
    Build(u64, List<FieldExpr>),
    Update(Box<Expr>, List<FieldExpr>),
    /// The code of a `do`: no node of its own.
    Seq(List<Stmt>),
}

/// A field of a bitdata value that is built or replaced.
#[cycle(expressions)]
#[derive(Debug, Drop)]
pub struct FieldExpr {
    pub bits: Bits,
    pub value: Expr,
}

/// A local definition: the local that it binds, and its value.
#[cycle(expressions)]
#[derive(Debug, Drop)]
pub struct Binding {
    pub local: u32,
    pub value: Expr,
}

/// A row of a `Case`: its patterns, one for each expression that is looked at, its local definitions and its expression.
#[cycle(expressions)]
#[derive(Debug, Drop)]
pub struct Row {
    pub pats: List<Pat>,
    pub local: List<Binding>,
    pub body: Expr,
}

/// A statement: an action whose result a pattern takes, local definitions, or an action whose result is dropped.
#[cycle(expressions)]
#[derive(Debug, Drop)]
pub enum Stmt {
    Take(Pat, Expr),
    Let(List<Binding>),
    Do(Expr),
}
