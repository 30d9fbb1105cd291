//! The rows that are live, and the states that they make.
use hb_base::Memory;
use std::alloc::Global;

/// A live row, and the list of its patterns that are left: that of the word that was begun, then those of the types of
/// which no letter was spelled.
#[derive(Clone, Copy, Debug)]
pub(crate) struct Live {
    pub(crate) row: usize,
    pub(crate) patterns: usize,
}

/// A state of a match.
#[derive(Debug, PartialEq, Eq, Hash, Drop)]
pub(crate) struct State {
    /// The list of the types of which no letter was spelled yet.
    pub(crate) types: usize,
    /// The number of bits left of a word that was begun.
    pub(crate) begun: u32,
    /// The set of the live rows: 64 of them in each number, row 0 at the lowest bit of the first.
    pub(crate) live: Vec<u64>,
}

/// The rows of one number of a set.
const ROWS_IN_WORD: usize = 64;

fn put_row(set: &mut [u64], row: usize) {
    let bit = 1 << (row % ROWS_IN_WORD);
    if let Some(word) = set.get_mut(row / ROWS_IN_WORD) {
        *word |= bit;
    }
}

/// The set of the live rows among so many.
pub(crate) fn row_set(alloc: Global, live: &[Live], rows: usize) -> Result<Vec<u64>, Memory> {
    let mut set = vec![in alloc; 0; rows.div_ceil(ROWS_IN_WORD)]?;
    for one in live {
        put_row(set.as_mut_slice(), one.row);
    }
    Ok(set)
}
