//! The reader of expressions, statements and equations: what it puts out and what it remembers. One token at a time, with
//! no recursion: the nodes come in their order, parts before the whole.
#![tactic(auto)]

mod asking;
mod closes;
mod ends;
mod equations;
mod finish;
mod frame;
mod inside;
mod node;
mod now;
mod outside;
mod posts;
mod reader;
mod settling;
mod sort;
mod starts;
mod state;
mod statements;
#[cfg(test)]
mod tests;
mod within;

pub use closes::OpenRow;
pub use ends::{PartHead, RightEnd, StatementHead};
pub use frame::{Begun, Frame, OpenField, Spot, Target};
pub use node::ExprNode;
pub use now::{Now, Purpose};
pub use settling::Extent;
pub use sort::Sort;
pub use state::{Core, State};
