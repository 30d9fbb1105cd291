use crate::expression::Bits;
use hb_base::{List, Place};

/// A node: its place in the source (0:0 in the prelude), the place of its type in the table of the program, and its number among all
/// nodes of the program's bodies.
#[derive(Clone, Copy, Debug, PartialEq, Eq)]
pub struct At {
    pub place: Place,
    pub of: usize,
    pub node: u32,
}

/// A pattern.
#[cycle(patterns)]
#[derive(Debug, Drop)]
pub struct Pat {
    pub at: At,
    pub form: PatForm,
}

/// The form of a pattern. `Local` binds a local of the body. `Con` is a constructor of a data type by its number among all
/// constructors. `Fields` is one of a bitdata type: the mask and the value of its fixed bits, and what its fields match.
#[cycle(patterns)]
#[derive(Debug, Drop)]
pub enum PatForm {
    Any,
    Local(u32),
    Number(u128),
    Con(u32, List<Pat>),
    Fields(u64, u64, List<FieldPat>),
}

/// A field in a pattern, and what it matches.
#[cycle(patterns)]
#[derive(Debug, Drop)]
pub struct FieldPat {
    pub bits: Bits,
    pub pat: Pat,
}
