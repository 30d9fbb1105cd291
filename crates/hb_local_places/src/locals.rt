use hb_base::{List, Memory};
use hb_mil::{Block, Mil};
use hb_values::ValueTypes;
use std::alloc::Global;

/// How many words the values of a type have.
pub fn words_of(types: &ValueTypes, of: u32) -> u32 {
    match types.words.as_slice().get(of as usize) {
        Some(words) => *words,
        None => 0,
    }
}

/// All locals of all blocks in one row: those of the first block in their order, then those of the next. Each has its number in the
/// row.
#[derive(Drop)]
pub(crate) struct Locals {
    /// The number of the first local of each block, and at the end that of the next after all.
    firsts: Vec<usize>,
    /// How many words each local has.
    words: Vec<u32>,
}

impl Locals {
    /// The locals of a program.
    pub(crate) fn of(alloc: Global, mil: &Mil) -> Result<Locals, Memory> {
        let mut firsts = Vec::new(alloc);
        let mut words = Vec::new(alloc);
        for block in mil.blocks.as_slice() {
            firsts.push(words.len())?;
            push_words(&mut words, &mil.types, block)?;
        }
        firsts.push(words.len())?;
        Ok(Locals { firsts, words })
    }

    /// How many locals there are.
    pub(crate) fn len(&self) -> usize {
        self.words.len()
    }

    /// The number of the first local of a block.
    pub(crate) fn first(&self, block: u32) -> usize {
        match self.firsts.get(block as usize) {
            Some(first) => *first,
            None => self.words.len(),
        }
    }

    /// The number of the next local after those of a block.
    pub(crate) fn end(&self, block: u32) -> usize {
        self.first(block.saturating_add(1))
    }

    /// How many locals a block has.
    pub(crate) fn count(&self, block: u32) -> usize {
        self.end(block).saturating_sub(self.first(block))
    }

    /// How many words the local of a number has.
    pub(crate) fn words(&self, number: usize) -> u32 {
        match self.words.get(number) {
            Some(words) => *words,
            None => 0,
        }
    }

    /// The numbers, handed over.
    pub(crate) fn into_firsts(self) -> Vec<usize> {
        self.firsts
    }
}

/// Puts the words of the locals of a block at the end.
fn push_words(words: &mut Vec<u32>, types: &ValueTypes, block: &Block) -> Result<(), Memory> {
    for of in block.params.as_slice() {
        words.push(words_of(types, *of))?;
    }
    for step in block.steps.as_slice() {
        words.push(words_of(types, step.of))?;
    }
    Ok(())
}
