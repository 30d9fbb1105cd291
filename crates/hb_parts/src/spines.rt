use crate::graph::Span;
use hb_base::Memory;
use hb_types::{Atom, Form, Types};
use std::alloc::Global;

/// What stands at the front of a type: a parameter of a declared type, a type constructor or a number.
#[derive(Clone, Copy, Debug, PartialEq, Eq)]
pub(crate) enum Head {
    Parameter(u32),
    Con(u32),
    Number(u64),
    Nothing,
}

/// A type by its head and its arguments, and whether a parameter stands in it.
#[derive(Clone, Copy, Debug)]
pub(crate) struct Spine {
    pub(crate) head: Head,
    pub(crate) arguments: Span,
    pub(crate) open: bool,
}

/// The spines of all types of a table, by their places.
#[derive(Debug, Drop)]
pub(crate) struct Spines {
    all: Vec<Spine>,
    arguments: Vec<usize>,
}

/// A type without arguments.
fn leaf(head: Head, open: bool) -> Spine {
    Spine {
        head,
        arguments: Span { first: 0, count: 0 },
        open,
    }
}

impl Spines {
    /// The type at a place.
    pub(crate) fn at(&self, place: usize) -> Spine {
        match self.all.get(place) {
            Some(spine) => *spine,
            None => leaf(Head::Nothing, false),
        }
    }

    /// The places of a type's arguments.
    pub(crate) fn arguments(&self, of: Span) -> &[usize] {
        of.part(&self.arguments)
    }

    /// A type applied to one more type.
    fn applied(&mut self, f: usize, x: usize) -> Result<Spine, Memory> {
        let function = self.at(f);
        let open = function.open || self.at(x).open;
        let first = self.arguments.len();
        for index in 0..function.arguments.count {
            let place = function.arguments.first.saturating_add(index);
            let argument = self.arguments.get(place).copied().unwrap_or(0);
            self.arguments.push(argument)?;
        }
        self.arguments.push(x)?;
        Ok(Spine {
            head: function.head,
            arguments: Span {
                first,
                count: self.arguments.len().saturating_sub(first),
            },
            open,
        })
    }

    fn spine(&mut self, form: Form) -> Result<Spine, Memory> {
        match form {
            Form::Unknown(_) => Ok(leaf(Head::Nothing, false)),
            Form::Leaf(Atom::Var(number)) => Ok(leaf(Head::Parameter(number), true)),
            Form::Leaf(Atom::Con(con)) => Ok(leaf(Head::Con(con), false)),
            Form::Leaf(Atom::Nat(number)) => Ok(leaf(Head::Number(number), false)),
            Form::Apply(f, x) => self.applied(f, x),
        }
    }

    pub(crate) fn new(alloc: Global, types: &Types) -> Result<Spines, Memory> {
        let mut spines = Spines {
            all: Vec::new(alloc),
            arguments: Vec::new(alloc),
        };
        for place in 0..types.len() {
            let spine = spines.spine(types.form(place))?;
            spines.all.push(spine)?;
        }
        Ok(spines)
    }
}
