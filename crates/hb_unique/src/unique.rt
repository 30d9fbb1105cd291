use crate::shape::form_at;
use hb_base::{List, Memory};
use hb_types::{Atom, Form, Types};
use indexmap::IndexMap;
use std::alloc::Global;

/// Puts a form at the end of a table. A form whose parts are not there becomes the unknown 0.
fn push(types: &mut Types, form: Form) -> Result<usize, Memory> {
    match form {
        Form::Apply(f, x) => {
            if f < types.len() && x < types.len() {
                types.push(form)
            } else {
                types.push(Form::Unknown(0))
            }
        }
        Form::Unknown(_) | Form::Leaf(_) => types.push(form),
    }
}

/// What is left to do of a type that is copied: a type of the other table, or the application of the last two copies.
#[derive(Clone, Copy)]
enum Todo {
    Copy(usize),
    Join,
}

/// A table of types in which none stands twice: two types are the same where their places are. An unknown may stand for
/// another type of the table; its place then counts as that type's.
#[derive(Drop)]
pub struct UniqueTypes {
    alloc: Global,
    types: Types,
    known: IndexMap<Form, usize>,
    meant: IndexMap<u64, usize>,
}

impl UniqueTypes {
    /// A table without types.
    pub fn new(alloc: Global) -> UniqueTypes {
        UniqueTypes {
            alloc,
            types: Types::new(alloc),
            known: IndexMap::new(alloc),
            meant: IndexMap::new(alloc),
        }
    }

    /// The types by themselves: unknowns that stand for others are unknowns here.
    pub fn types(&self) -> &Types {
        &self.types
    }

    /// How many types there are.
    pub fn len(&self) -> usize {
        self.types.len()
    }

    /// The types by themselves, handed over.
    pub fn into_types(self) -> Types {
        self.types
    }

    /// The place for which the unknown at a place stands, or the place itself.
    fn next(&self, place: usize) -> Option<usize> {
        match form_at(&self.types, place) {
            Some(Form::Unknown(number)) => self.meant.get(&number).copied(),
            _ => None,
        }
    }

    /// The place of the type for which a type stands: its own, unless it is an unknown that stands for another.
    pub fn resolved(&self, place: usize) -> usize {
        let mut at = place;
        for _ in 0..self.types.len() {
            match self.next(at) {
                Some(next) => at = next,
                None => return at,
            }
        }
        at
    }

    /// The form of the type for which the one at a place stands, if there is such a place.
    pub fn form(&self, place: usize) -> Option<Form> {
        form_at(&self.types, self.resolved(place))
    }

    /// The unknown that a type is, by its number, if it is one.
    pub fn unknown(&self, place: usize) -> Option<u64> {
        match self.form(place) {
            Some(Form::Unknown(number)) => Some(number),
            _ => None,
        }
    }

    /// Lets an unknown that stands for nothing stand for another type from now on. Where the type at the first place is
    /// no such unknown, or both are the same, nothing changes.
    pub fn mean(&mut self, place: usize, other: usize) -> Result<(), Memory> {
        let from = self.resolved(place);
        let to = self.resolved(other);
        if let Some(Form::Unknown(number)) = form_at(&self.types, from) {
            if from != to {
                self.meant.insert(number, to)?;
            }
        }
        Ok(())
    }

    /// The place of a form, with its parts as far as they are known.
    fn put(&mut self, form: Form) -> Result<usize, Memory> {
        if let Some(place) = self.known.get(&form) {
            return Ok(*place);
        }
        let place = push(&mut self.types, form)?;
        self.known.insert(form, place)?;
        Ok(place)
    }

    /// The place of a type without parts.
    pub fn leaf(&mut self, atom: Atom) -> Result<usize, Memory> {
        self.put(Form::Leaf(atom))
    }

    /// The place of the unknown of this number.
    pub fn open(&mut self, number: u64) -> Result<usize, Memory> {
        self.put(Form::Unknown(number))
    }

    /// The place of a type applied to one more type.
    pub fn apply(&mut self, function: usize, argument: usize) -> Result<usize, Memory> {
        let f = self.resolved(function);
        let x = self.resolved(argument);
        self.put(Form::Apply(f, x))
    }

    /// The place of a type applied to several more types.
    pub fn apply_all(&mut self, function: usize, arguments: &[usize]) -> Result<usize, Memory> {
        let mut whole = function;
        for argument in arguments {
            whole = self.apply(whole, *argument)?;
        }
        Ok(whole)
    }

    /// The place of a type without parts, with the argument in the place of a variable. A variable without an argument
    /// stays.
    fn put_atom(&mut self, atom: Atom, args: &[usize]) -> Result<usize, Memory> {
        match atom {
            Atom::Var(variable) => match args.get(variable as usize) {
                Some(arg) => Ok(self.resolved(*arg)),
                None => self.leaf(atom),
            },
            Atom::Con(_) | Atom::Nat(_) => self.leaf(atom),
        }
    }

    /// The place of the type at a place of another table, with the types at `args[v]` in the place of the variable v, in
    /// time that is linear in the type, each part of it counted as often as it occurs.
    pub fn copy(&mut self, of: &Types, place: usize, args: &[usize]) -> Result<usize, Memory> {
        let mut todo = Vec::new(self.alloc);
        let mut done = Vec::new(self.alloc);
        todo.push(Todo::Copy(place))?;
        for _ in 0..u64::MAX {
            let Some(one) = todo.pop() else {
                break;
            };
            self.copy_step(of, one, args, &mut todo, &mut done)?;
        }
        Ok(done.pop().unwrap_or(0))
    }

    fn copy_step(
        &mut self,
        of: &Types,
        one: Todo,
        args: &[usize],
        todo: &mut Vec<Todo>,
        done: &mut Vec<usize>,
    ) -> Result<(), Memory> {
        match one {
            Todo::Copy(place) => self.copy_form(form_at(of, place), args, todo, done),
            Todo::Join => {
                let x = done.pop().unwrap_or(0);
                let f = done.pop().unwrap_or(0);
                let whole = self.apply(f, x)?;
                done.push(whole)?;
                Ok(())
            }
        }
    }

    fn copy_form(
        &mut self,
        form: Option<Form>,
        args: &[usize],
        todo: &mut Vec<Todo>,
        done: &mut Vec<usize>,
    ) -> Result<(), Memory> {
        match form {
            Some(Form::Apply(f, x)) => {
                todo.push(Todo::Join)?;
                todo.push(Todo::Copy(x))?;
                todo.push(Todo::Copy(f))?;
            }
            Some(Form::Leaf(atom)) => {
                let place = self.put_atom(atom, args)?;
                done.push(place)?;
            }
            Some(Form::Unknown(number)) => {
                let place = self.open(number)?;
                done.push(place)?;
            }
            None => {
                let place = self.open(0)?;
                done.push(place)?;
            }
        }
        Ok(())
    }

    /// The places of several types of another table, each as `copy` does it.
    pub fn copy_each(
        &mut self,
        of: &Types,
        places: &[usize],
        args: &[usize],
    ) -> Result<Vec<usize>, Memory> {
        let mut all = Vec::new(self.alloc);
        for place in places {
            let here = self.copy(of, *place, args)?;
            all.push(here)?;
        }
        Ok(all)
    }

    /// Puts all types of another table here, and answers for each place there its place here, in time that is linear in
    /// that table. Variables stay.
    pub fn take(&mut self, of: &Types) -> Result<List<usize>, Memory> {
        let mut places = Vec::new(self.alloc);
        for place in 0..of.len() {
            let here = match of.form(place) {
                Form::Apply(f, x) => {
                    let function = places.get(f).copied().unwrap_or(0);
                    let argument = places.get(x).copied().unwrap_or(0);
                    self.apply(function, argument)?
                }
                form => self.put(form)?,
            };
            places.push(here)?;
        }
        Ok(List::of(places))
    }
}
