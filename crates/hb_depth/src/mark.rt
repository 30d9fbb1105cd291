use crate::shape::Shape;

/// A node with the levels that its parts are deeper than it, where it is a form of its own.
#[derive(Clone, Copy, Debug, PartialEq, Eq)]
pub struct Mark {
    pub shape: Shape,
    pub levels: u32,
}
