use hb_base::{Memory, Name, fixed};
use std::alloc::Global;

/// What a name of types and classes is. `Fact` is a predicate that no class declares.
#[derive(Clone, Copy)]
pub(crate) enum Sort {
    Unknown,
    Type,
    Class,
    Fact,
}

/// The names of types and classes, by their numbers.
#[derive(Drop)]
pub(crate) struct Sorts {
    sorts: Vec<Sort>,
}

/// The types that no declaration makes.
const TYPES: [Name; 12] = [
    fixed::UNSIGNED,
    fixed::SIGNED,
    fixed::BIT,
    fixed::IX,
    fixed::NON_ZERO,
    fixed::M,
    fixed::IN,
    fixed::OUT,
    fixed::REF,
    fixed::STORED,
    fixed::BE,
    fixed::ARRAY,
];

/// The predicates that no class declares.
const FACTS: [Name; 5] = [
    fixed::WIDTH,
    fixed::INDEX,
    fixed::NUM_LIT,
    fixed::BIT_REP,
    fixed::CELL,
];

impl Sorts {
    /// So many names, of which what no program declares is known.
    pub(crate) fn new(alloc: Global, names: u32) -> Result<Sorts, Memory> {
        let sorts = vec![in alloc; Sort::Unknown; names as usize]?;
        let mut sorts = Sorts { sorts };
        for name in &TYPES {
            sorts.declare(*name, Sort::Type);
        }
        for name in &FACTS {
            sorts.declare(*name, Sort::Fact);
        }
        Ok(sorts)
    }

    pub(crate) fn of(&self, name: Name) -> Sort {
        match self.sorts.get(name.0 as usize) {
            Some(sort) => *sort,
            None => Sort::Unknown,
        }
    }

    /// Declares a name, and answers whether it was declared before. What was declared first stays.
    pub(crate) fn declare(&mut self, name: Name, sort: Sort) -> bool {
        if !matches!(self.of(name), Sort::Unknown) {
            return true;
        }
        if let Some(slot) = self.sorts.get_mut(name.0 as usize) {
            *slot = sort;
        }
        false
    }
}
