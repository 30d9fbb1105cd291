use hb_base::{List, Memory};
use hb_defun_base::Blocks;
use hb_mil::{Atom, Block};
use std::alloc::Global;

/// The code of a body as it is made: the blocks, and where each local of the body stands.
#[derive(Drop)]
pub struct Flow {
    pub alloc: Global,
    pub blocks: Blocks,
    pub body: u32,
    scope: Vec<Atom>,
}

impl Flow {
    /// No blocks and no body yet.
    pub fn new(alloc: Global) -> Flow {
        Flow {
            alloc,
            blocks: Blocks::new(alloc),
            body: 0,
            scope: Vec::new(alloc),
        }
    }

    /// A body with so many locals is begun in its block. Its first locals are those of the block.
    pub fn enter(&mut self, body: u32, locals: usize, block: u32) -> Result<(), Memory> {
        let mut scope = Vec::new(self.alloc);
        for place in 0..locals {
            let place = u32::try_from(place).unwrap_or(0);
            scope.push(Atom::Local(place))?;
        }
        self.scope = scope;
        self.body = body;
        self.blocks.open(block)
    }

    /// Where a local of the body stands.
    pub fn local(&self, local: u32) -> Atom {
        match self.scope.get(local as usize) {
            Some(atom) => *atom,
            None => Atom::Number(0),
        }
    }

    /// A local of the body stands here.
    pub fn bind(&mut self, local: u32, value: Atom) {
        if let Some(atom) = self.scope.get_mut(local as usize) {
            *atom = value;
        }
    }

    /// Where the first so many locals of the body stand.
    pub fn first(&self, count: u32) -> Result<List<Atom>, Memory> {
        let mut atoms = List::of(Vec::new(self.alloc));
        for local in 0..count {
            atoms.push(self.local(local))?;
        }
        Ok(atoms)
    }

    /// All blocks in the order of their numbers.
    pub fn into_blocks(self) -> List<Block> {
        let Flow { blocks, scope, .. } = self;
        drop(scope);
        blocks.into_all()
    }
}
