use crate::side::{Heading, Side};
use crate::symbol::Symbol;
use hb_base::Place;
use hb_read_expressions::State;
use hb_read_types::{ContextReader, PredReader, QualifiedReader, TypeReader};

/// A thing that is half read by a reader of its own.
#[derive(Drop)]
pub enum LeafReader {
    Type(TypeReader),
    Atype(TypeReader),
    Pred(PredReader),
    Qualified(QualifiedReader),
    Expr(State),
    Equation(State),
}

/// What is still to come.
#[derive(Drop)]
pub enum Frame {
    /// A symbol, the place where its form began and the number of parts so far.
    Waits(Symbol, Place, usize),
    /// The rest of a thing that is half read.
    Reads(LeafReader),
    /// The rest of an equation or of the names of a signature.
    Line(Option<State>, Side),
    /// The rest of a context or of the head of a class.
    Class(Option<ContextReader>, Heading),
}
