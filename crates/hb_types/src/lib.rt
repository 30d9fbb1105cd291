//! Types, kinds and predicates as all passes share them, and what equations between types say: plain data, whose
//! types are nodes of a table, and the laws of equations between finite types.
#![tactic(auto)]

mod atom;
mod instance_use;
mod kind;
mod kind_table;
mod normal;
mod put;
mod scheme;
mod table;
#[cfg(test)]
mod tests;
mod types;

pub use atom::Atom;
pub use instance_use::{InstanceUse, UseForm, no_uses, push_use};
pub use kind::Kind;
pub use kind_table::{KindForm, Kinds};
pub use scheme::{Pred, Scheme};
pub use table::{Form, Types};
pub use types::Ty;
