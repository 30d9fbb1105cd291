use hb_base::{List, Name, Names, Place};
use hb_tree::Program;

/// What a name stands for where it is used. `Top` is the declaration of this number in the program, from 0: an equation,
/// an area or a port. `Method` counts the methods of all classes, `Con` the constructors of all types, each in text order;
/// `Prim` counts the primitives. `Local` is a local name: that of a pattern has the number of the pattern's node, that of
/// a definition the number of the node of its first row's expression. The names of `each` are numbered in text order
/// from the number of nodes on.
#[derive(Clone, Copy, Debug, PartialEq, Eq)]
pub enum Target {
    None,
    Top(u32),
    Method(u32),
    Prim(u32),
    Con(u32),
    Local(u32),
}

/// A local name where it is bound, and its number.
#[derive(Clone, Copy, Debug, PartialEq, Eq)]
pub struct Binder {
    pub place: Place,
    pub name: Name,
    pub number: u32,
}

/// What a node uses: the name that stands there, if it uses one, and what this means.
#[derive(Clone, Copy, Debug, PartialEq, Eq)]
pub struct Use {
    pub place: Place,
    pub name: Option<Name>,
    pub target: Target,
}

/// A program whose operators are grouped, whose nodes are numbered from 0 in node order, and whose names have their
/// targets: one for each node. `names` is the table with which it was read.
#[derive(Drop)]
pub struct Resolved {
    pub program: Program,
    pub targets: List<Target>,
    pub names: Names,
}
