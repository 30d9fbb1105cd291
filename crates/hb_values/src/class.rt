use crate::form::ValueTypes;
use hb_base::List;

/// What a function or an action is made from: a body of the ground program, a primitive, or a constructor by its number among all
/// constructors.
#[derive(Clone, Copy, Debug, PartialEq, Eq, Hash)]
pub enum Member {
    Body(u32),
    Primitive(u32),
    Constructor(u32),
}

/// A label of a closure class: its member, the numbers of a primitive, how many arguments it has taken, and the types of what it
/// has captured: free variables first, then the arguments taken.
#[derive(Debug, Drop)]
pub struct Label {
    pub member: Member,
    pub numbers: List<u64>,
    pub taken: u32,
    pub captures: List<u32>,
}

/// A closure class: the labels of its values in their order. `takes` is the type of the argument, and none where the class is one of
/// actions; `gives` is the type of the result.
#[derive(Debug, Drop)]
pub struct Class {
    pub takes: Option<u32>,
    pub gives: u32,
    pub labels: List<Label>,
}

/// The closure classes of a ground program: the table of the types of its values, the classes in their order, for each node of the
/// program, by its number, the type of its value, for each body the types of its locals and of what its call or its run gives, and
/// the room of each body in bytes.
#[derive(Debug, Drop)]
pub struct ClassMap {
    pub types: ValueTypes,
    pub classes: List<Class>,
    pub of_node: List<u32>,
    pub of_local: List<List<u32>>,
    pub results: List<u32>,
    pub rooms: List<u32>,
}
