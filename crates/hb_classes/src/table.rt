use hb_base::{List, Place};
use hb_types::Types;

/// What a predicate asks: one of the built-in predicates, a declared class by its place among the classes in text order,
/// or the selection or the update of a field, by the number of its name.
#[derive(Clone, Copy, PartialEq, Eq)]
pub enum Class {
    /// `n + m = p`.
    Sum,
    /// `n * m = p`.
    Product,
    /// `2 ^ n = m`.
    Power,
    /// `n <= m`.
    AtMost,
    Width,
    Index,
    /// `NumLit k t`.
    NumLit,
    /// `BitRep t n`.
    BitRep,
    /// `Cell a t`.
    Cell,
    Declared(u32),
    /// Of the type of a value and the type of its field.
    Selection(u32),
    /// Of the type of an updated value and the type of its field.
    Update(u32),
}

/// A predicate on types, which are named by their places in a table.
#[derive(Drop)]
pub struct Predicate {
    pub class: Class,
    pub args: List<usize>,
}

/// A dependency of a class: the parameters at these places tell those at others.
#[derive(Drop)]
pub struct Dependency {
    pub from: List<usize>,
    pub to: List<usize>,
}

/// A declared class. Its context speaks of its parameters as variables from 0; a variable of the context that is no
/// parameter has a number past them.
#[derive(Drop)]
pub struct ClassDecl {
    /// The place of the declaration, 0:0 in the prelude.
    pub place: Place,
    pub parameters: u32,
    pub context: List<Predicate>,
    pub dependencies: List<Dependency>,
}

/// A declared instance. Head and context speak of its variables from 0.
#[derive(Drop)]
pub struct InstanceDecl {
    /// The place of the declaration, 0:0 in the prelude.
    pub place: Place,
    /// The class, by its place among the classes.
    pub class: u32,
    /// How many variables the head and the context have.
    pub variables: usize,
    pub head: List<usize>,
    pub context: List<Predicate>,
    /// Whether each method of the class has an equation.
    pub is_complete: bool,
}

/// A field, by the number of its name, and its type.
#[derive(Clone, Copy)]
pub struct Field {
    pub name: u32,
    pub of: usize,
}

/// What the predicates ask of a declared type.
#[derive(Drop)]
pub struct DeclaredType {
    pub is_struct: bool,
    /// The width of a bitdata type that breaks no rule; none for other types.
    pub width: Option<u32>,
    /// The fields of a struct, or of the one constructor of a bitdata type that breaks no rule; none for other types.
    pub fields: List<Field>,
}

/// The classes, instances and declared types of a program in text order, the prelude's first, and the table in which all
/// types stand of which they speak.
#[derive(Drop)]
pub struct ClassTable {
    pub types: Types,
    pub classes: List<ClassDecl>,
    pub instances: List<InstanceDecl>,
    pub declared: List<DeclaredType>,
}

/// How many predicates are built in: the declared classes come after them.
const BUILT_IN: u32 = 9;

impl Class {
    /// The class of a number: the built-in predicates in their order, then the declared classes. There is none of a
    /// selection or an update.
    pub fn of_number(number: u32) -> Class {
        match number {
            0 => Class::Sum,
            1 => Class::Product,
            2 => Class::Power,
            3 => Class::AtMost,
            4 => Class::Width,
            5 => Class::Index,
            6 => Class::NumLit,
            7 => Class::BitRep,
            8 => Class::Cell,
            _ => Class::Declared(number.saturating_sub(BUILT_IN)),
        }
    }

    /// The number of a class among the predicates, if it is no selection or update.
    pub fn number(self) -> Option<u32> {
        match self {
            Class::Sum => Some(0),
            Class::Product => Some(1),
            Class::Power => Some(2),
            Class::AtMost => Some(3),
            Class::Width => Some(4),
            Class::Index => Some(5),
            Class::NumLit => Some(6),
            Class::BitRep => Some(7),
            Class::Cell => Some(8),
            Class::Declared(place) => place.checked_add(BUILT_IN),
            Class::Selection(_) | Class::Update(_) => None,
        }
    }
}
