//! One state after another, none twice, in the order of the least spellings that lead to them.
use crate::chain::EMPTY;
use crate::letters::letters;
use crate::live::{State, row_set};
use crate::position::{Lists, Match, Position};
use crate::stepping::step;
use hb_base::{List, Memory};
use hb_spelling::Letter;
use indexmap::IndexSet;
use std::alloc::Global;

/// A state that is gone through.
#[derive(Drop)]
pub(crate) struct Visit {
    here: Position,
    letters: Vec<Letter>,
    /// The number of letters that were tried.
    tried: usize,
}

impl Visit {
    /// The next letter to be tried.
    fn next_letter(&mut self) -> Option<Letter> {
        let letter = *self.letters.as_slice().get(self.tried)?;
        self.tried = self.tried.saturating_add(1);
        Some(letter)
    }
}

/// The states that were found, and those that are gone through, each after one letter of the one before.
#[derive(Drop)]
pub(crate) struct Search {
    alloc: Global,
    rows: usize,
    pub(crate) lists: Lists,
    states: IndexSet<State>,
    open: Vec<Visit>,
    /// The least spelling so far that no row matches.
    pub(crate) missing: Option<List<Letter>>,
}

impl Search {
    pub(crate) fn new(alloc: Global, rows: usize, lists: Lists) -> Search {
        Search {
            alloc,
            rows,
            lists,
            states: IndexSet::new(alloc),
            open: Vec::new(alloc),
            missing: None,
        }
    }

    /// The number of different states so far.
    pub(crate) fn count(&self) -> usize {
        self.states.len()
    }

    /// The letters that lead to the last open state.
    fn letters_so_far(&self) -> Result<List<Letter>, Memory> {
        let mut spelling = List::of(Vec::new(self.alloc));
        for visit in &self.open {
            if let Some(last) = visit.tried.checked_sub(1) {
                if let Some(letter) = visit.letters.as_slice().get(last) {
                    spelling.push(*letter)?;
                }
            }
        }
        Ok(spelling)
    }

    /// Notes the spelling that leads to a new state, where it is whole, no row matches it, and none was noted before.
    fn note(&mut self, here: &Position) -> Result<(), Memory> {
        let is_whole = here.types == EMPTY && here.begun == 0;
        if is_whole && here.live.is_empty() && self.missing.is_none() {
            let spelling = self.letters_so_far()?;
            self.missing = Some(spelling);
        }
        Ok(())
    }

    /// Goes to a state, if it is a new one.
    pub(crate) fn enter(&mut self, about: &Match, here: Position) -> Result<(), Memory> {
        let live = row_set(self.alloc, &here.live, self.rows)?;
        let (_, is_new) = self.states.insert_full(State {
            types: here.types,
            begun: here.begun,
            live,
        })?;
        if is_new {
            self.note(&here)?;
            let letters = letters(self.alloc, about, &self.lists, &here)?;
            self.open.push(Visit {
                here,
                letters,
                tried: 0,
            })?;
        }
        Ok(())
    }

    /// Tries the next letter of the last open state, or leaves that state. Answers whether one was open.
    pub(crate) fn advance(&mut self, about: &Match) -> Result<bool, Memory> {
        let Some(mut visit) = self.open.pop() else {
            return Ok(false);
        };
        if let Some(letter) = visit.next_letter() {
            let there = step(self.alloc, about, &mut self.lists, &visit.here, letter)?;
            self.open.push(visit)?;
            self.enter(about, there)?;
        }
        Ok(true)
    }
}
