use hb_base::Place;

/// What a form is to the depth of its parts.
#[derive(Clone, Copy, Debug, PartialEq, Eq)]
pub enum Kind {
    /// Its parts are so many levels deeper.
    Levels(u32),
    /// The first part applied to the second.
    Apply,
    /// The functions from the first part to the second.
    Arrow,
}

/// What a form that stands in another is to the form around it.
#[derive(Clone, Copy, Debug, PartialEq, Eq)]
pub enum Around {
    /// A part like others.
    Other,
    /// What is applied in an application.
    Head,
    /// What is behind an arrow.
    Right,
}

/// A node, as its depth is found. `parts` counts the forms that stand before it and belong to it: at most one more than a
/// count of 64 bits. A form without a place is no level, or it has parts.
#[derive(Clone, Copy, Debug, PartialEq, Eq)]
pub struct Shape {
    pub kind: Kind,
    pub place: Option<Place>,
    pub parts: u128,
}
