//! Readers of types, predicates and contexts. A reader takes one token at a time and puts out the nodes of the tree, the
//! parts before the whole. It builds no tree, and nothing in it recurses on nesting.
#![tactic(auto)]

mod context_reader;
mod node;
mod pred_reader;
mod qualified_reader;
mod sort;
#[cfg(test)]
mod tests;
mod type_reader;

pub use context_reader::{ContextReader, Several, SeveralStage};
pub use node::TypeNode;
pub use pred_reader::{Fact, PredReader, PredStage};
pub use qualified_reader::QualifiedReader;
pub use sort::{Sort, sort_of};
pub use type_reader::{Frame, Now, Spot, TypeReader};
