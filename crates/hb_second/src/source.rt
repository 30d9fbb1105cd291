use hb_base::{List, Port};

/// A source of the second form: its ports, each of eight bits, and what `main` does, in order.
#[derive(Debug, Drop)]
pub struct Source {
    pub ports: List<Port>,
    pub statements: List<Statement>,
}

/// A read or a write of the port of this number in the list. The k-th read binds the variable k, from 0.
#[derive(Clone, Copy, Debug, PartialEq, Eq)]
pub enum Statement {
    Read(u32),
    Write(u32, Argument),
}

/// What a write is given.
#[derive(Clone, Copy, Debug, PartialEq, Eq)]
pub enum Argument {
    Atom(Atom),
    Operation(Atom, Operator, Atom),
}

/// A byte, or the variable of this number.
#[derive(Clone, Copy, Debug, PartialEq, Eq)]
pub enum Atom {
    Literal(u8),
    Variable(u32),
}

/// An operator on eight bits; sums and differences wrap.
#[derive(Clone, Copy, Debug, PartialEq, Eq)]
pub enum Operator {
    Add,
    Sub,
    And,
    Or,
    Xor,
}
