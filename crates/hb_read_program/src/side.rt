use hb_base::{List, Name, Place};
use hb_read_declarations::DeclNode;
use hb_tree::NameAt;

/// Where a reading of names with `,` between stands.
#[derive(Clone, Copy)]
pub enum Spot {
    /// A name is to come.
    Want,
    /// `(` at this place.
    Open(Place),
    /// `(` at this place, and an operator.
    Operator(Place, Name),
    /// A name.
    Named(NameAt),
}

/// What is read of the names of a signature, while an equation is read beside them.
#[derive(Drop)]
pub enum Side {
    /// It is no signature.
    Gone,
    /// The place of the first name, so many names before the last, their nodes, and the last.
    Names(Place, usize, List<DeclNode>, Spot),
}

/// What is read of the head of a class, while a context is read beside it.
#[derive(Drop)]
pub enum Heading {
    /// There is a context before it.
    Gone,
    /// No token is taken.
    Before,
    /// Its name and so many parameters, and their nodes.
    Names(usize, List<DeclNode>),
}
