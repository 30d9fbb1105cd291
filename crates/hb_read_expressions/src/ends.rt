use crate::frame::Begun;
use crate::node::ExprNode;
use hb_base::Place;

/// What a form that is open to the right puts out at its end.
#[derive(Clone, Copy)]
pub struct RightEnd {
    /// In which expression the form stands.
    pub begun: Begun,
    pub place: Place,
    pub node: ExprNode,
}

/// Where a statement begins.
#[derive(Clone, Copy)]
pub struct StatementHead {
    /// In which expression the `do` stands.
    pub begun: Begun,
    /// Where the `do` stands.
    pub place: Place,
    /// The count of the statements before this one.
    pub before: u32,
    /// The count of the nodes before it.
    pub mark: u32,
}

/// Where an alternative or a statement begins.
#[derive(Clone, Copy)]
pub struct PartHead {
    /// In which expression the `case` or the `do` stands.
    pub begun: Begun,
    /// Where the `case` or the `do` stands.
    pub place: Place,
    /// The count of the alternatives or statements before this one.
    pub before: u32,
}
