ghost use Rattle.std.specs.Prelude.{◌≡◌};
ghost use Rattle.hb_read_patterns.specs.Starts.{start_of, more_start};

use crate::head::Head;
use crate::node::PatNode;
use crate::sort::Sort;
use hb_base::{Name, Place};

/// What the first token of a simple pattern gives.
#[derive(Clone, Copy, Debug, PartialEq, Eq)]
pub enum Start {
    /// The whole of it.
    Node(PatNode),
    /// A constructor's place and name.
    Name(Place, Name),
    /// `(` at this place.
    Bracket(Place),
}

/// What a token of this sort at this place gives, if a simple pattern begins with it. Takes no memory.
pub fn start_of(place: Place, sort: Sort) -> Option<Start>
    ensures { result ≡ start_of place sort }
{
    match sort {
        Sort::Variable(name) => Some(Start::Node(PatNode::Var(place, name))),
        Sort::Wildcard => Some(Start::Node(PatNode::Any(place))),
        Sort::Number(number) => Some(Start::Node(PatNode::Number(place, number))),
        Sort::Bits(width, number) => Some(Start::Node(PatNode::Bits(place, width, number))),
        Sort::Constructor(name) => Some(Start::Name(place, name)),
        Sort::Open => Some(Start::Bracket(place)),
        _ => None,
    }
}

/// What the token gives where it is one more simple pattern after others. Takes no memory.
pub fn more_start(head: Head, place: Place, sort: Sort) -> Option<Start>
    ensures { result ≡ more_start head place sort }
{
    if head.repeats() {
        start_of(place, sort)
    } else {
        None
    }
}
