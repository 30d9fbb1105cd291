use hb_base::{Dir, Name, Place};
use hb_read_expressions::ExprNode;
use hb_read_types::TypeNode;
use hb_tree::Fix;

/// One form of a declaration. Its parts stand before it in a list of nodes. A count tells how many parts there are of a kind
/// that stand together.
#[derive(Clone, Copy, Debug, PartialEq, Eq)]
pub enum DeclNode {
    /// A node of a type, a predicate or a context.
    Type(TypeNode),
    /// A node of an expression or of an equation.
    Expr(ExprNode),
    /// A name where it is written.
    Name(Place, Name),
    /// So many names.
    Names(usize),
    /// So many types.
    Types(usize),
    /// A number is left out.
    NoNumber,
    /// A number.
    Number(u64),
    /// A signature at this place: its names, its context and its type.
    Sig(Place),
    /// So many signatures.
    Sigs(usize),
    /// An equation by itself.
    Equation,
    /// So many equations.
    Equations(usize),
    /// A fixity: its names.
    Fixity(Place, Fix, u8),
    /// A constructor of a data type: its name and the types of its arguments.
    DataCon,
    /// So many constructors of a data type.
    DataCons(usize),
    /// Names and a type are fields.
    Fields,
    /// Bits by their width and number are a part of a bitdata constructor.
    Tag(u32, u128),
    /// Fields are a part of a bitdata constructor.
    BitFields,
    /// A constructor of a bitdata type: its name and so many parts.
    BitCon(usize),
    /// So many constructors of a bitdata type.
    BitCons(usize),
    /// So many bytes without a name are a part of a struct.
    Pad(u64),
    /// Fields are a part of a struct.
    StructFields,
    /// So many parts of a struct.
    StructParts(usize),
    /// A dependency: names and names.
    Depend,
    /// So many dependencies.
    Depends(usize),
    /// An initialiser of each element, behind the name of the index, at the word `each`.
    InitEach(Place),
    /// The initialiser of a field, behind its name.
    InitField,
    /// So many fields are an initialiser, at the word `fields`.
    InitFields(Place, usize),
    /// An expression is the initialiser of a cell, at its first token.
    InitCell(Place),
    /// No initialiser.
    NoInit,
    /// An initialiser.
    Init,
    /// A data type: its name, its parameters and its constructors.
    Data(Place),
    /// A bitdata type: its name, its width and its constructors.
    Bitdata(Place),
    /// A struct: its name, its size and its parts.
    Struct(Place),
    /// An area: its name, its initialiser, its type and its alignment.
    Area(Place),
    /// A port: its name and its type, then its direction, and the width and the number of its address.
    Port(Place, Dir, u32, u128),
    /// A class: its context, its name, its parameters, its dependencies and its signatures.
    Class(Place),
    /// An instance: its name, its types, its conditions and its equations.
    Instance(Place),
    /// So many declarations are a program.
    Program(usize),
}
