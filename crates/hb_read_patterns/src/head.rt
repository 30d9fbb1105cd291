ghost use Rattle.std.specs.Prelude.{◌≡◌, ◌+◌, IfOk};
ghost use Rattle.hb_read_patterns.specs.Heads.{repeats, more_head, head_node, named_head, named_node};

use crate::node::PatNode;
use hb_base::{Memory, Name, Place};

/// What stands around the next simple pattern, up to the bracket that is open.
#[derive(Clone, Copy, Debug, PartialEq, Eq)]
pub enum Head {
    /// A whole pattern is read: it may be a constructor with its arguments.
    Whole,
    /// One simple pattern is read, and nothing after it.
    Single,
    /// The arguments of a constructor: its place, its name, and the count of those that were begun.
    Applied(Place, Name, u32),
    /// Any number of simple patterns: the count of those that were begun.
    Many(u32),
}

/// One more. At the end of its type the count is too long for memory.
pub fn one_more(count: u32) -> Result<u32, Memory>
    ensures { IfOk result (λ more. more ≡ count + 1) }
{
    match count.checked_add(1) {
        Some(more) => Ok(more),
        None => Err(Memory),
    }
}

impl Head {
    /// More simple patterns may come. Takes no memory.
    pub fn repeats(self) -> bool
        ensures { result ≡ repeats self }
    {
        match self {
            Head::Applied(_, _, _) | Head::Many(_) => true,
            Head::Whole | Head::Single => false,
        }
    }

    /// The head where one more simple pattern is begun.
    pub fn more(self) -> Result<Head, Memory>
        ensures { IfOk result (λ head. head ≡ more_head self) }
    {
        match self {
            Head::Applied(place, con, count) => {
                let more = one_more(count)?;
                Ok(Head::Applied(place, con, more))
            }
            Head::Whole => Ok(Head::Whole),
            Head::Single => Ok(Head::Single),
            Head::Many(count) => {
                let more = one_more(count)?;
                Ok(Head::Many(more))
            }
        }
    }

    /// The node that is due where no more simple patterns come. Takes no memory.
    pub fn node(self) -> Option<PatNode>
        ensures { result ≡ head_node self }
    {
        match self {
            Head::Applied(place, con, count) => Some(PatNode::Con(place, con, count)),
            Head::Many(count) => Some(PatNode::Row(count)),
            Head::Whole | Head::Single => None,
        }
    }

    /// The head after a constructor's name that no `[` follows. Takes no memory.
    pub fn named(self, place: Place, con: Name) -> Head
        ensures { result ≡ named_head self place con }
    {
        match self {
            Head::Whole => Head::Applied(place, con, 0),
            Head::Single | Head::Applied(_, _, _) | Head::Many(_) => self,
        }
    }

    /// The node of a constructor's name that no `[` follows, where it takes no arguments. Takes no memory.
    pub fn named_node(self, place: Place, con: Name) -> Option<PatNode>
        ensures { result ≡ named_node self place con }
    {
        match self {
            Head::Whole => None,
            Head::Single | Head::Applied(_, _, _) | Head::Many(_) => {
                Some(PatNode::Con(place, con, 0))
            }
        }
    }
}
