use hb_base::{List, Name, Place};

/// A part of a constructor: fixed bits, by their width and the number that they spell; or a field, by its name, the place
/// of its type, and the width of that type where it has one.
#[derive(Debug, Drop)]
pub enum PartForm {
    Tag(u32, u128),
    Field(Name, Place, Option<u64>),
}

/// A constructor at its place, and its parts from the most significant bit down.
#[derive(Debug, Drop)]
pub struct ConForm {
    pub name: Name,
    pub place: Place,
    pub parts: List<PartForm>,
}

/// A bitdata type as it is declared: the width that it is said to have, if there is one, and its constructors.
#[derive(Debug, Drop)]
pub struct BitForm {
    pub width: Option<u64>,
    pub cons: List<ConForm>,
}
