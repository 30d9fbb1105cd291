use hb_base::Memory;
use hb_types::{Atom, Form, Types};
use hb_unique::form_at;
use indexmap::IndexMap;
use std::alloc::Global;

/// How many constructors, arrows, numbers and variables some types have, and how often each variable stands in them.
#[derive(Drop)]
pub struct Count {
    nodes: u64,
    variables: IndexMap<u32, u64>,
}

impl Count {
    /// How often a variable stands in the types.
    fn variable(&self, variable: u32) -> u64 {
        match self.variables.get(&variable) {
            Some(count) => *count,
            None => 0,
        }
    }

    fn add(&mut self, atom: Atom) -> Result<(), Memory> {
        self.nodes = self.nodes.saturating_add(1);
        if let Atom::Var(variable) = atom {
            let count = self.variable(variable).saturating_add(1);
            self.variables.insert(variable, count)?;
        }
        Ok(())
    }

    /// Whether each variable of these types is one of the others.
    pub fn has_variables_of(&self, others: &Count) -> bool {
        others
            .variables
            .iter()
            .all(|(variable, _)| 0 < self.variable(*variable))
    }

    /// Whether each variable of these types has a number below a count.
    pub fn has_variables_below(&self, count: u32) -> bool {
        self.variables.iter().all(|(variable, _)| *variable < count)
    }

    /// Whether these types are smaller than others: they have fewer nodes, and no variable more often.
    pub fn is_smaller(&self, others: &Count) -> bool {
        self.nodes < others.nodes
            && self
                .variables
                .iter()
                .all(|(variable, count)| *count <= others.variable(*variable))
    }
}

/// Counts what stands in the types at some places of a table, each part as often as it occurs.
pub fn count_types(alloc: Global, types: &Types, places: &[usize]) -> Result<Count, Memory> {
    let mut count = Count {
        nodes: 0,
        variables: IndexMap::new(alloc),
    };
    let mut left = Vec::from_slice(alloc, places)?;
    for _ in 0..u64::MAX {
        let Some(place) = left.pop() else {
            return Ok(count);
        };
        match form_at(types, place) {
            Some(Form::Apply(f, x)) => {
                left.push(f)?;
                left.push(x)?;
            }
            Some(Form::Leaf(atom)) => count.add(atom)?,
            _ => {}
        }
    }
    Ok(count)
}
