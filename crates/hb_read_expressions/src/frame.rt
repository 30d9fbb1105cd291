ghost use Rattle.std.specs.Prelude.{◌≡◌, ◌+◌, IfOk};
ghost use Rattle.hb_read_expressions.specs.States.{first_of, one_more, run_at, begun_of};
ghost use Rattle.hb_read_expressions.specs.Ends.{right_end, target_node};
ghost use Rattle.hb_read_expressions.specs.Statements.{head_of};

use crate::ends::{RightEnd, StatementHead};
use crate::node::ExprNode;
use hb_base::{Memory, Name, Place};

/// An expression in which an operand is read.
#[derive(Clone, Copy)]
pub enum Begun {
    /// The first operand, which begins here.
    First(Place),
    /// An operand after one or more operators: where the expression begins, and how many operators there are so far.
    After(Place, u32),
}

/// What a post is read as: in an expression in progress.
#[derive(Clone, Copy)]
pub enum Spot {
    /// The head of an application.
    Head(Begun),
    /// An argument.
    Argument(Begun),
}

/// What field brackets belong to.
#[derive(Clone, Copy)]
pub enum Target {
    /// The construction of a value.
    Build(Name),
    /// The update of the expression before.
    Update,
}

/// A field in brackets whose name is read.
#[derive(Clone, Copy)]
pub struct OpenField {
    /// Where the post begins.
    pub first: Place,
    pub target: Target,
    /// The count of the fields before this one.
    pub before: u32,
    pub place: Place,
    pub name: Name,
}

/// What is open around the expression that is read.
#[derive(Clone, Copy)]
pub enum Frame {
    /// `(` at this place.
    Bracket(Spot, Place),
    /// `( expr ,` with the bracket's place.
    Second(Spot, Place),
    /// `post [ .. field =`: where the post begins, what the brackets are, the count of the fields before this one, and its
    /// place and name.
    Field(Spot, Place, Target, u32, Place, Name),
    /// `\ apat+ ->`: the place, and the count of patterns. Open to the right.
    Lambda(Begun, Place, u32),
    /// `let {` and the equations that come.
    LetBinds(Begun, Place),
    /// `let block in`: the place, and the count of equations. Open to the right.
    LetBody(Begun, Place, u32),
    /// `if`
    If(Begun, Place),
    /// `if expr then`
    Then(Begun, Place),
    /// `if expr then expr else`. Open to the right.
    Else(Begun, Place),
    /// `case`
    Case(Begun, Place),
    /// `case expr of { .. pat ->`, with the count of the alternatives before this one.
    Alternative(Begun, Place, u32),
    /// `lhs =`: the name, the equation's place, the count of its patterns, and the count of equations before it in its block.
    Row(Name, Place, u32, u32),
    /// `lhs = expr where {`: the same, and after the count of patterns where the expression begins.
    Where(Name, Place, u32, Place, u32),
    /// A block of equations that is read by itself.
    Block,
    /// `do { ..` and a statement's expression: the count of the statements before it, and that of the nodes.
    Statement(Begun, Place, u32, u32),
    /// `do { .. pat <-`, with the count of the statements before this one.
    Taken(Begun, Place, u32),
}

/// One more. At the end of its type the count is too long for memory.
pub(crate) fn next_count(count: u32) -> Result<u32, Memory>
    ensures { IfOk result (λ more. more ≡ count + 1) }
{
    match count.checked_add(1) {
        Some(more) => Ok(more),
        None => Err(Memory),
    }
}

impl Begun {
    /// Where the expression begins. Takes no memory.
    pub fn first(self) -> Place
        ensures { result ≡ first_of self }
    {
        match self {
            Begun::First(place) | Begun::After(place, _) => place,
        }
    }

    /// The same with one operator more.
    pub fn more(self) -> Result<Begun, Memory>
        ensures { IfOk result (λ begun. begun ≡ one_more self) }
    {
        match self {
            Begun::First(place) => Ok(Begun::After(place, 1)),
            Begun::After(place, operators) => {
                let more = next_count(operators)?;
                Ok(Begun::After(place, more))
            }
        }
    }

    /// Where the expression stands, whose last operand stands at this place. Takes no memory.
    pub fn run_at(self, stands: Place) -> Place
        ensures { result ≡ run_at self stands }
    {
        match self {
            Begun::First(_) => stands,
            Begun::After(place, _) => place,
        }
    }
}

impl Spot {
    /// The expression in progress. Takes no memory.
    pub fn begun(self) -> Begun
        ensures { result ≡ begun_of self }
    {
        match self {
            Spot::Head(begun) | Spot::Argument(begun) => begun,
        }
    }
}

impl Target {
    /// The node of so many fields in brackets. Takes no memory.
    pub fn node(self, place: Place, fields: u32) -> ExprNode
        ensures { result ≡ target_node self place fields }
    {
        match self {
            Target::Build(name) => ExprNode::Build(place, name, fields),
            Target::Update => ExprNode::Update(place, fields),
        }
    }
}

impl Frame {
    /// What a form that is open to the right puts out at its end. Takes no memory.
    pub fn right_end(self) -> Option<RightEnd>
        ensures { result ≡ right_end self }
    {
        match self {
            Frame::Lambda(begun, place, patterns) => Some(RightEnd {
                begun,
                place,
                node: ExprNode::Lambda(place, patterns),
            }),
            Frame::LetBody(begun, place, binds) => Some(RightEnd {
                begun,
                place,
                node: ExprNode::Let(place, binds),
            }),
            Frame::Else(begun, place) => Some(RightEnd {
                begun,
                place,
                node: ExprNode::If(place),
            }),
            _ => None,
        }
    }

    /// The statement whose expression is read in this frame. Takes no memory.
    pub fn statement_head(self) -> Option<StatementHead>
        ensures { result ≡ head_of self }
    {
        match self {
            Frame::Statement(begun, place, before, mark) => Some(StatementHead {
                begun,
                place,
                before,
                mark,
            }),
            _ => None,
        }
    }
}
