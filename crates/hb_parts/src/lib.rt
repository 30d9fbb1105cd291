//! Graphs of ground types: nodes that stand for types with their functions and actions, joined where these are equal one by one.
#![tactic(auto)]

mod closing;
mod declared;
mod graph;
mod heads;
mod joining;
mod shown;
mod spines;
mod tables;
mod taking;
mod templates;

pub use closing::{Closing, Shape};
pub use graph::{Graph, Node, Parts, Span};
pub use heads::{
    ACTION, AREA_ARRAY, ARROW, BIG_ENDIAN, BIT, FIRST_DECLARED, IN, IX, NON_ZERO, OUT, REF, SIGNED,
    STORED, UNSIGNED,
};
pub use tables::Tables;
