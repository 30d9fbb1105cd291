use hb_area::CellForm;
use hb_base::List;
use hb_values::{Class, ValueTypes};

/// What a step works on: a local of the block, by its place, from 0; a number; an area or a port of the program, by its number in
/// text order.
#[derive(Clone, Copy, Debug, PartialEq, Eq)]
pub enum Atom {
    Local(u32),
    Number(u64),
    Area(u32),
    Port(u32),
}

/// What a step computes.
#[derive(Debug, Drop)]
pub enum Operation {
    /// A primitive that is no action, by its number, with the numbers that it rests on, on all its arguments.
    Primitive(u32, List<u64>, List<Atom>),
    /// A function or an action of a class: the number of its label there, and what it captures.
    Make(u32, u32, List<Atom>),
    /// A data value: the number of its constructor in its type, and all arguments.
    Build(u32, List<Atom>),
    /// The bits of a word from a place on, counted from the least: so many.
    Cut(Atom, u32, u32),
    /// A word with the bits from a place on, so many, replaced.
    Place(Atom, u32, u32, Atom),
    /// 1 where the word has the bits of the value in the mask, and else 0.
    Has(Atom, u64, u64),
    /// The reference so many bytes after a reference.
    Offset(Atom, u32),
    /// The argument at a place of a data value of the constructor of this number.
    Part(Atom, u32, u32),
    /// What a block that begins a body gives for these arguments.
    Call(u32, List<Atom>),
    /// What a function gives for an argument.
    Apply(Atom, Atom),
    /// What an action gives when it is run.
    Perform(Atom),
    ReadCell(Atom, CellForm),
    WriteCell(Atom, CellForm, Atom),
    ReadPort(Atom, u8),
    WritePort(Atom, u8, Atom),
    /// The reference to a cell of an area: so many bytes after its begin, and a stride for each index.
    CellAt(u32, u32, List<(Atom, u32)>),
    /// The cell at a reference gets its first value.
    Initialise(Atom, CellForm, Atom),
}

/// A step sets the next local of its block, of this type. One of type `Nothing` keeps no word of the result.
#[derive(Debug, Drop)]
pub struct Step {
    pub operation: Operation,
    pub of: u32,
}

/// What comes after the last step of a block.
#[derive(Debug, Drop)]
pub enum Tail {
    /// The call is over, and this is what it gives.
    Return(Atom),
    /// A block that begins a body, called in the place of this one.
    Jump(u32, List<Atom>),
    /// A function applied, and an action run, in the place of this block.
    Enter(Atom, Atom),
    Run(Atom),
    /// By the number of a data value's constructor, or by a word: the block of that number, of the same body, whose parameters are
    /// all locals of this block.
    Switch(Atom, List<u32>),
    /// A block of the same body, whose parameters are so many first locals of this block, and behind them the value, if there is one.
    Goto(u32, u32, Option<Atom>),
    /// The program halts with this code.
    Halt(Atom),
    /// The program is done.
    Done,
}

/// A block: the body to which it belongs, or none; whether it begins what is called; the types of its parameters, which are its
/// first locals; its steps and its tail; and the type of what its call gives.
#[derive(Debug, Drop)]
pub struct Block {
    pub body: Option<u32>,
    pub begins: bool,
    pub params: List<u32>,
    pub steps: List<Step>,
    pub tail: Tail,
    pub result: u32,
}

/// A block program: the table of its types, its blocks, the closure classes, for each class the blocks at which its labels begin
/// (their parameters are what the label has captured, and then the argument of a function), the room of each body in bytes, and the
/// block with which the program begins. Blocks of no body are those of labels that are no body, and the ones with which the program
/// begins: those in `starts`.
#[derive(Debug, Drop)]
pub struct Mil {
    pub types: ValueTypes,
    pub blocks: List<Block>,
    pub classes: List<Class>,
    pub labels: List<List<u32>>,
    pub rooms: List<u32>,
    pub starts: List<u32>,
    pub entry: u32,
}
