//! Lists of places that share their ends. Two lists are the same where their numbers are.
use hb_base::Memory;
use indexmap::IndexSet;
use std::alloc::Global;

/// The first place of a list, and the number of the rest.
#[derive(Clone, Copy, Debug, PartialEq, Eq, Hash)]
pub(crate) struct Link {
    pub(crate) first: usize,
    pub(crate) rest: usize,
}

/// The number of the list without places.
pub(crate) const EMPTY: usize = 0;

/// The lists that were made so far.
#[derive(Drop)]
pub(crate) struct Chains {
    links: IndexSet<Link>,
}

impl Chains {
    pub(crate) fn new(alloc: Global) -> Chains {
        Chains {
            links: IndexSet::new(alloc),
        }
    }

    /// The list with one place more at its front.
    pub(crate) fn push(&mut self, first: usize, rest: usize) -> Result<usize, Memory> {
        let (index, _) = self.links.insert_full(Link { first, rest })?;
        Ok(index.saturating_add(1))
    }

    /// The list with these places before it.
    pub(crate) fn push_all(&mut self, places: &[usize], rest: usize) -> Result<usize, Memory> {
        let mut list = rest;
        for place in places.iter().rev() {
            list = self.push(*place, list)?;
        }
        Ok(list)
    }

    /// The list with so many times this place before it.
    pub(crate) fn push_times(
        &mut self,
        place: usize,
        times: usize,
        rest: usize,
    ) -> Result<usize, Memory> {
        let mut list = rest;
        for _ in 0..times {
            list = self.push(place, list)?;
        }
        Ok(list)
    }

    /// The first place and the rest of a list that has one.
    pub(crate) fn link(&self, list: usize) -> Option<Link> {
        let link = self.links.get_index(list.checked_sub(1)?)?;
        Some(*link)
    }

    pub(crate) fn rest(&self, list: usize) -> usize {
        match self.link(list) {
            Some(link) => link.rest,
            None => EMPTY,
        }
    }
}
