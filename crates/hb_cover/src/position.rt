use crate::chain::Chains;
use crate::live::Live;
use hb_spelling::{Patterns, Spellings};

/// What a match is about.
#[derive(Drop)]
pub(crate) struct Match<'a> {
    pub(crate) types: &'a Spellings,
    /// For each type whether it has values.
    pub(crate) valued: Vec<bool>,
    pub(crate) patterns: &'a Patterns,
}

/// What one prefix leaves.
#[derive(Debug, Drop)]
pub(crate) struct Position {
    /// The list of the types of which no letter was spelled yet.
    pub(crate) types: usize,
    /// The number of bits left of a word that was begun; 0 where none was.
    pub(crate) begun: u32,
    /// The live rows in their order.
    pub(crate) live: Vec<Live>,
}

/// The lists of types and of patterns.
#[derive(Drop)]
pub(crate) struct Lists {
    pub(crate) types: Chains,
    pub(crate) patterns: Chains,
}

impl Position {
    /// The type whose letters come next, where no word was begun.
    pub(crate) fn next_type(&self, lists: &Lists) -> Option<usize> {
        let link = lists.types.link(self.types)?;
        Some(link.first)
    }
}
