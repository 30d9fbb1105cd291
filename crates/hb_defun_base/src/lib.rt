//! What the pass from ground programs to block programs stands on: the blocks as they are made, the table of types with those that
//! only block programs want, and look-ups in a ground program and its closure classes.
#![tactic(auto)]

mod blocks;
mod ground;
mod kinds;

pub use blocks::Blocks;
pub use ground::{Ground, is_action, primitive_arity};
pub use kinds::{Kinds, block_types};
