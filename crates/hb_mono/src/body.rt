use crate::expression::Expr;
use hb_area::CellForm;
use hb_base::{List, Name, Place};
use hb_types::Types;

/// How a body comes to be done: it is called with so many arguments, or it is the run of a `do`.
#[derive(Clone, Copy, Debug, PartialEq, Eq)]
pub enum BodyKind {
    Call(u32),
    Run,
}

/// A body: the definition or area to which it belongs, the place of the first token of its first expression, how it comes to be
/// done, how many locals it has captured, and the place of each local's type. The locals are those captured, then the parameters,
/// then the others. The code of a body made of equations or of a lambda is one `Case` on its parameters, that of a `do` a `Seq`;
/// neither is a node.
#[derive(Debug, Drop)]
pub struct Body {
    pub owner: Name,
    pub place: Place,
    pub kind: BodyKind,
    pub free: u32,
    pub locals: List<usize>,
    pub code: Expr,
}

/// What an instance is made of: a top-level definition by the number of its declaration, or a method's equation by the number of the
/// instance in text order and the place of the method in its class.
#[derive(Clone, Copy, Debug, PartialEq, Eq, Hash)]
pub enum Source {
    Top(u32),
    Method(u32, u32),
}

/// A needed instance: what it is made of, its ground types, and its body.
#[derive(Debug, Drop)]
pub struct Instance {
    pub source: Source,
    pub types: List<usize>,
    pub body: u32,
}

/// A constructor of a data type: the number of its type among the declared ones, its place among the constructors of the type, and
/// the types of its arguments over the parameters of the type. One of a bitdata type stands here without arguments.
#[derive(Debug, Drop)]
pub struct Constructor {
    pub of: u32,
    pub index: u32,
    pub arguments: List<usize>,
}

/// What a declared type is: a data type, a bitdata type of so many bits, or a struct.
#[derive(Clone, Copy, Debug, PartialEq, Eq)]
pub enum DeclaredForm {
    Data,
    Bits(u32),
    Struct,
}

/// How an area, or a part of one, begins: a cell gets what a body gives for the indices round it; each element of an array; or some
/// fields of a struct, each so many bytes on. Cells that nothing begins hold zero.
#[cycle(starts)]
#[derive(Debug, Drop)]
pub enum Start {
    Zero,
    Cell(CellForm, u32),
    Each(u64, u32, Box<Start>),
    Fields(List<(u32, Start)>),
}

/// A ground program: the table of its types (of constructors' arguments over variables too), what each declared type is, all
/// constructors of the source, the needed instances (the first is `main`), their bodies in the order of the instances, each with the
/// bodies inside of it behind it in node order, and for each area how it begins. `nodes` is how many numbers nodes have.
#[derive(Debug, Drop)]
pub struct Mono {
    pub types: Types,
    pub data: List<DeclaredForm>,
    pub constructors: List<Constructor>,
    pub instances: List<Instance>,
    pub bodies: List<Body>,
    pub starts: List<Start>,
    pub nodes: u32,
}
