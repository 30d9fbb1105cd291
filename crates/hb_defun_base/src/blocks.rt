use hb_base::{List, Memory};
use hb_mil::{Atom, Block, Operation, Step, Tail};
use std::alloc::Global;

/// Blocks as they are made. One of them is open: it gets steps and at last its tail. `body` and `result` are those of the blocks
/// that are reserved next.
#[derive(Drop)]
pub struct Blocks {
    alloc: Global,
    all: Vec<Block>,
    open: u32,
    locals: Vec<u32>,
    pub body: Option<u32>,
    pub result: u32,
}

/// The first so many types.
fn first(alloc: Global, types: &[u32], count: usize) -> Result<List<u32>, Memory> {
    let mut copy = List::of(Vec::new(alloc));
    for of in types.iter().take(count) {
        copy.push(*of)?;
    }
    Ok(copy)
}

/// A number of things that are numbered by 32 bits; there is no memory for more.
fn counted(count: usize) -> Result<u32, Memory> {
    match u32::try_from(count) {
        Ok(count) => Ok(count),
        Err(_) => Err(Memory),
    }
}

impl Blocks {
    /// No blocks.
    pub fn new(alloc: Global) -> Blocks {
        Blocks {
            alloc,
            all: Vec::new(alloc),
            open: 0,
            locals: Vec::new(alloc),
            body: None,
            result: 0,
        }
    }

    /// All blocks in the order of their numbers.
    pub fn into_all(self) -> List<Block> {
        let Blocks { all, locals, .. } = self;
        drop(locals);
        List::of(all)
    }

    /// How many blocks there are.
    pub fn count(&self) -> Result<u32, Memory> {
        counted(self.all.len())
    }

    /// How many locals the open block has.
    pub fn kept(&self) -> Result<u32, Memory> {
        counted(self.locals.len())
    }

    /// A new block with these parameters, without steps, at whose end the program is done; and its number.
    pub fn reserve(&mut self, begins: bool, params: List<u32>) -> Result<u32, Memory> {
        let number = self.count()?;
        self.all.push(Block {
            body: self.body,
            begins,
            params,
            steps: List::of(Vec::new(self.alloc)),
            tail: Tail::Done,
            result: self.result,
        })?;
        Ok(number)
    }

    /// Opens a block that was reserved.
    pub fn open(&mut self, number: u32) -> Result<(), Memory> {
        self.open = number;
        let mut locals = Vec::new(self.alloc);
        if let Some(block) = self.all.as_slice().get(number as usize) {
            for of in block.params.as_slice() {
                locals.push(*of)?;
            }
        }
        self.locals = locals;
        Ok(())
    }

    /// A new block with these parameters is the open one; its number.
    pub fn begin(&mut self, begins: bool, params: List<u32>) -> Result<u32, Memory> {
        let number = self.reserve(begins, params)?;
        self.open(number)?;
        Ok(number)
    }

    /// A new block whose parameters are the first so many locals of the open one, and behind them a value of a type, if there is
    /// one; its number.
    pub fn behind(&mut self, kept: u32, value: Option<u32>) -> Result<u32, Memory> {
        let mut params = first(self.alloc, self.locals.as_slice(), kept as usize)?;
        if let Some(of) = value {
            params.push(of)?;
        }
        self.reserve(false, params)
    }

    /// A new block whose parameters are all locals of the open one; its number.
    pub fn fork(&mut self) -> Result<u32, Memory> {
        let kept = self.kept()?;
        self.behind(kept, None)
    }

    /// A step of the open block sets its next local, of this type.
    pub fn step(&mut self, operation: Operation, of: u32) -> Result<Atom, Memory> {
        let local = self.kept()?;
        self.put(Step { operation, of })?;
        self.locals.push(of)?;
        Ok(Atom::Local(local))
    }

    fn put(&mut self, step: Step) -> Result<(), Memory> {
        let number = self.open as usize;
        match self.all.get_mut(number) {
            Some(block) => block.steps.push(step)?,
            None => drop(step),
        }
        Ok(())
    }

    /// The open block ends so.
    pub fn end(&mut self, tail: Tail) {
        self.finish(self.open, tail)
    }

    /// A block that was reserved ends so.
    pub fn finish(&mut self, number: u32, tail: Tail) {
        match self.all.get_mut(number as usize) {
            Some(block) => block.tail = tail,
            None => drop(tail),
        }
    }

    /// Goes on in a new block with the first so many locals alone.
    pub fn keep(&mut self, kept: u32) -> Result<(), Memory> {
        let next = self.behind(kept, None)?;
        self.end(Tail::Goto(next, kept, None));
        self.open(next)
    }

    /// Goes on in a new block with the first so many locals and a value behind them; where it stands then.
    pub fn keep_with(&mut self, kept: u32, value: Atom, of: u32) -> Result<Atom, Memory> {
        let next = self.behind(kept, Some(of))?;
        self.end(Tail::Goto(next, kept, Some(value)));
        self.open(next)?;
        Ok(Atom::Local(kept))
    }
}
