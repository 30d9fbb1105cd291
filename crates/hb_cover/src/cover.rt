use crate::chain::{Chains, EMPTY};
use crate::live::Live;
use crate::position::{Lists, Match, Position};
use crate::search::Search;
use crate::stepping::settle;
use hb_base::limits::MATCH_STATES;
use hb_base::{List, Memory};
use hb_spelling::{
    Letter, Patterns, Spellings, are_valued, matches_some, pattern_at, valued_types,
};
use std::alloc::Global;

/// Whether the rows of a match have all values.
#[derive(Debug, Drop)]
pub enum Covered {
    /// Each value is in some row.
    Whole,
    /// The least spelling that no row matches.
    Missing(List<Letter>),
    /// The prefixes of all spellings leave more than 4,096 different states.
    TooMany,
}

/// The list of a row's patterns, as many as there are types.
fn row_patterns(lists: &mut Lists, row: &[usize], width: usize) -> Result<usize, Memory> {
    let mut list = EMPTY;
    for index in (0..width).rev() {
        list = lists.patterns.push(pattern_at(row, index), list)?;
    }
    Ok(list)
}

/// The rows that match some value, with their patterns.
fn live_rows(
    alloc: Global,
    about: &Match,
    lists: &mut Lists,
    rows: &[List<usize>],
    of: &[usize],
) -> Result<Vec<Live>, Memory> {
    let mut live = Vec::new(alloc);
    for row in 0..rows.len() {
        if let Some(patterns) = rows.get(row) {
            let patterns = patterns.as_slice();
            if matches_some(
                alloc,
                about.types,
                &about.valued,
                about.patterns,
                patterns,
                of,
            )? {
                let patterns = row_patterns(lists, patterns, of.len())?;
                live.push(Live { row, patterns })?;
            }
        }
    }
    Ok(live)
}

/// Goes through all states, or to the first one past the limit.
fn go_through(about: &Match, mut search: Search) -> Result<Covered, Memory> {
    for _ in 0..u64::MAX {
        if search.count() > MATCH_STATES as usize {
            return Ok(Covered::TooMany);
        }
        if !search.advance(about)? {
            break;
        }
    }
    let Search { missing, .. } = search;
    match missing {
        Some(spelling) => Ok(Covered::Missing(spelling)),
        None => Ok(Covered::Whole),
    }
}

/// Whether each list of values of the types `of` is matched by some row. A row has as many patterns as there are types.
/// Values are spelled one after another, letter by letter, and spellings are ordered by their first differing letter. A
/// state is what one prefix of a spelling leaves: the rows that match some spelling with that prefix, the types still to
/// be spelled, and the number of bits left of a word that was begun. The limit on states is asked first.
pub fn covers<'a>(
    alloc: Global,
    types: &'a Spellings,
    patterns: &'a Patterns,
    rows: &List<List<usize>>,
    of: &List<usize>,
) -> Result<Covered, Memory> {
    let valued = valued_types(alloc, types)?;
    if !are_valued(&valued, of.as_slice()) {
        return Ok(Covered::Whole);
    }
    let about = Match {
        types,
        valued,
        patterns,
    };
    let mut lists = Lists {
        types: Chains::new(alloc),
        patterns: Chains::new(alloc),
    };
    let left = lists.types.push_all(of.as_slice(), EMPTY)?;
    let live = live_rows(alloc, &about, &mut lists, rows.as_slice(), of.as_slice())?;
    let mut start = Position {
        types: left,
        begun: 0,
        live,
    };
    settle(&about, &lists, &mut start);
    let mut search = Search::new(alloc, rows.len(), lists);
    search.enter(&about, start)?;
    go_through(&about, search)
}
