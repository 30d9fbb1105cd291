//! What is known of the parts of declarations, for the reader of programs: the nodes of the tree that they are put out as, what a
//! token is worth, and the readers of types, expressions and equations with the nodes of declarations.
#![tactic(auto)]

mod node;
mod width;

pub use node::DeclNode;
pub use width::Width;
