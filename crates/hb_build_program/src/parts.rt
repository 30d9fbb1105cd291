ghost use Rattle.std.specs.Prelude.{◌≡◌};
ghost use Rattle.hb_build_program.specs.States.{no_heads, no_members, no_starts};

use hb_base::List;
use hb_stack::Stack;
use hb_tree::{
    BitCon, BitPart, DataCon, Depend, FieldDecl, FieldInit, InitExpr, NameAt, PredExpr, Sig,
    StructPart, TypeExpr,
};
use std::alloc::Global;

/// The small parts of declarations: names, lists of names, numbers that may be left out, lists of types, and the context of
/// the class whose head is at its end.
#[derive(Debug, Drop)]
pub struct Heads {
    pub names: Stack<NameAt>,
    pub lists: Stack<List<NameAt>>,
    pub numbers: Stack<Option<u64>>,
    pub types: Stack<List<TypeExpr>>,
    pub supers: Option<List<PredExpr>>,
}

/// The members of types and classes that are not at their end.
#[derive(Debug, Drop)]
pub struct Members {
    pub sigs: Stack<Sig>,
    pub cons: Stack<DataCon>,
    pub fields: Stack<FieldDecl>,
    pub bit_parts: Stack<BitPart>,
    pub bit_cons: Stack<BitCon>,
    pub struct_parts: Stack<StructPart>,
    pub depends: Stack<Depend>,
}

/// The initialisers, the fields of initialisers, and what areas begin with, if they are given it.
#[derive(Debug, Drop)]
pub struct Starts {
    pub inits: Stack<InitExpr>,
    pub fields: Stack<FieldInit>,
    pub given: Stack<Option<InitExpr>>,
}

impl Heads {
    /// Nothing is built yet. Takes no memory.
    pub fn new(alloc: Global) -> Heads
        ensures { result ≡ no_heads }
    {
        Heads {
            names: Stack::new(alloc),
            lists: Stack::new(alloc),
            numbers: Stack::new(alloc),
            types: Stack::new(alloc),
            supers: None,
        }
    }
}

impl Members {
    /// Nothing is built yet. Takes no memory.
    pub fn new(alloc: Global) -> Members
        ensures { result ≡ no_members }
    {
        Members {
            sigs: Stack::new(alloc),
            cons: Stack::new(alloc),
            fields: Stack::new(alloc),
            bit_parts: Stack::new(alloc),
            bit_cons: Stack::new(alloc),
            struct_parts: Stack::new(alloc),
            depends: Stack::new(alloc),
        }
    }
}

impl Starts {
    /// Nothing is built yet. Takes no memory.
    pub fn new(alloc: Global) -> Starts
        ensures { result ≡ no_starts }
    {
        Starts {
            inits: Stack::new(alloc),
            fields: Stack::new(alloc),
            given: Stack::new(alloc),
        }
    }
}
