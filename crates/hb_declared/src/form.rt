use hb_base::{Dir, List, Name, Place};
use hb_tree::NameAt;
use hb_types::Types;

/// A predicate that is asked for, its types by their places in a table. Classes are numbered: 0 `n + m = p`, 1 `n * m = p`,
/// 2 `2 ^ n = m`, 3 `n <= m`, 4 `Width`, 5 `Index`, 6 `NumLit`, 7 `BitRep`, 8 `Cell`, and from 9 on the declared ones in text order.
#[derive(Debug, Drop)]
pub struct Ask {
    pub class: u32,
    pub args: List<usize>,
}

/// A type with so many variables, and what it asks of them; it and the types in what it asks stand in its own table. The variables
/// are those that are written, in the order in which they first occur, those of a class before all others, and then one for each sum
/// of the signature, an outer one before those inside of it.
#[derive(Debug, Drop)]
pub struct Scheme {
    pub variables: u32,
    pub types: Types,
    pub asks: List<Ask>,
    pub body: usize,
}

#[derive(Clone, Copy, Debug, PartialEq, Eq)]
pub enum TypeForm {
    Data,
    Bitdata,
    Struct,
}

/// A declared type: the number of its declaration, its form, how many parameters it has, the number that is written after its name, its
/// constructors, which are so many from the first on, and the parts of a struct, whose types stand in `types`.
#[derive(Debug, Drop)]
pub struct DeclaredType {
    pub name: NameAt,
    pub place: Place,
    pub decl: u32,
    pub form: TypeForm,
    pub parameters: u32,
    pub number: Option<u64>,
    pub first: u32,
    pub count: u32,
    pub types: Types,
    pub parts: List<StructPart>,
}

/// A part of a struct: bytes without a name, or a field.
#[derive(Debug, Drop)]
pub enum StructPart {
    Pad(u64),
    Field(StructField),
}

/// A field of a struct: its name, and the place of its type in the source and in the table.
#[derive(Clone, Copy, Debug)]
pub struct StructField {
    pub name: NameAt,
    pub type_place: Place,
    pub of: usize,
}

/// A constructor: the number of its type among the declared ones, its place among the constructors of the type, its type as a scheme
/// over the parameters of the type (that of a bitdata constructor takes nothing), and what it is made of.
#[derive(Debug, Drop)]
pub struct Constructor {
    pub name: NameAt,
    pub of: u32,
    pub index: u32,
    pub scheme: Scheme,
    pub form: ConstructorForm,
}

/// The types of the arguments by their places in the table of the scheme, or the parts from the highest bit on.
#[derive(Debug, Drop)]
pub enum ConstructorForm {
    Data(List<usize>),
    Bits(List<BitPart>),
}

#[derive(Debug, Drop)]
pub enum BitPart {
    Tag(u32, u128),
    Field(BitField),
}

/// A field of a bitdata constructor: its name, and the place of its type in the source and in the table.
#[derive(Clone, Copy, Debug)]
pub struct BitField {
    pub name: NameAt,
    pub type_place: Place,
    pub of: usize,
}

/// A dependency of a class, by the places of its parameters.
#[derive(Debug, Drop)]
pub struct Depends {
    pub from: List<u32>,
    pub to: List<u32>,
}

/// A class: its context over its parameters, whose types stand in `types`, its dependencies, and its methods, which are so many from
/// the first on.
#[derive(Debug, Drop)]
pub struct Class {
    pub name: NameAt,
    pub place: Place,
    pub parameters: u32,
    pub types: Types,
    pub context: List<Ask>,
    pub depends: List<Depends>,
    pub first: u32,
    pub count: u32,
}

/// A method: the number of its class among the declared ones, its place in the class, and the number of its scheme, which asks for the
/// class first.
#[derive(Clone, Copy, Debug)]
pub struct Method {
    pub name: NameAt,
    pub class: u32,
    pub index: u32,
    pub scheme: u32,
}

/// An instance: the number of its declaration, its class among the declared ones, how many variables it has, its head and its context,
/// whose types stand in `types`, and for each method of the class which of the instance's definitions it is.
#[derive(Debug, Drop)]
pub struct Instance {
    pub place: Place,
    pub decl: u32,
    pub class: u32,
    pub variables: u32,
    pub types: Types,
    pub head: List<usize>,
    pub context: List<Ask>,
    pub equations: List<Option<u32>>,
}

/// A top-level definition: the number of its declaration, and that of its scheme.
#[derive(Clone, Copy, Debug)]
pub struct Definition {
    pub name: Name,
    pub decl: u32,
    pub scheme: u32,
}

/// An area: the number of its declaration, its type as one of areas, and the alignment that is written.
#[derive(Debug, Drop)]
pub struct Area {
    pub name: NameAt,
    pub place: Place,
    pub decl: u32,
    pub of: Scheme,
    pub type_place: Place,
    pub aligned: Option<u64>,
}

/// A port: the type of its values, and the width and the number of the address as it is written.
#[derive(Debug, Drop)]
pub struct Port {
    pub name: NameAt,
    pub place: Place,
    pub dir: Dir,
    pub of: Scheme,
    pub width: u32,
    pub address: u128,
}

/// What the declaration of a number gives to a name: a definition, an area or a port by its number.
#[derive(Clone, Copy, Debug, PartialEq, Eq)]
pub enum Top {
    None,
    Definition(u32),
    Area(u32),
    Port(u32),
}

/// What a program declares, each kind in text order. `schemes` are those of signatures, and `tops` has an entry for each declaration. A
/// declared type has the number among type constructors that is 13 more than its number here.
#[derive(Debug, Drop)]
pub struct Declared {
    pub schemes: List<Scheme>,
    pub types: List<DeclaredType>,
    pub constructors: List<Constructor>,
    pub classes: List<Class>,
    pub methods: List<Method>,
    pub instances: List<Instance>,
    pub definitions: List<Definition>,
    pub areas: List<Area>,
    pub ports: List<Port>,
    pub tops: List<Top>,
}
