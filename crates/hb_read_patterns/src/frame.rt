use crate::head::Head;
use crate::node::PatNode;
use hb_base::{Name, Place};

/// A bracket that is open, with what stands around it.
#[derive(Clone, Copy, Debug, PartialEq, Eq)]
pub enum Frame {
    /// `(`, and a pattern is read.
    First(Head, Place),
    /// `( pat ,`, and a pattern is read.
    Second(Head, Place),
    /// `con [ .. field =`, and a pattern is read.
    Given(Head, OpenField),
}

/// A field in a constructor's square brackets.
#[derive(Clone, Copy, Debug, PartialEq, Eq)]
pub struct OpenField {
    /// Where the constructor stands.
    pub place: Place,
    pub con: Name,
    /// The count of fields up to this one.
    pub count: u32,
    /// Where the field stands.
    pub field_place: Place,
    pub field: Name,
}

/// The nodes that are due before a bracket closes: that of a simple pattern, and then that of the whole one.
#[derive(Clone, Copy, Debug, PartialEq, Eq)]
pub struct Due {
    pub simple: Option<PatNode>,
    pub whole: Option<PatNode>,
}
