//! Classes and their instances: which predicates hold and by which instances, and which follow from others.
#![tactic(auto)]

mod facts;
mod goals;
mod holding;
mod index;
mod searching;
mod selection;
mod table;

pub use facts::{bit_width, bytes_of_cell, content, is_fact, number};
pub use goals::{Goal, Goals, Rule, Span};
pub use holding::{Choices, ground, holds};
pub use index::{InstanceIndex, form_at_head, form_at_top};
pub use searching::Search;
pub use selection::{forced_by_selection, is_selected};
pub use table::{
    Class, ClassDecl, ClassTable, DeclaredType, Dependency, Field, InstanceDecl, Predicate,
};
