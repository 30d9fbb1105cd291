use crate::table::{ClassTable, InstanceDecl};
use hb_base::Memory;
use hb_types::{Atom, Form, Types};
use hb_unique::{UniqueTypes, form_at};
use indexmap::IndexMap;
use std::alloc::Global;

/// What stands at the head of an argument of an instance: a variable, or a constructor or number. All arguments have
/// anything there.
#[derive(Clone, Copy, PartialEq, Eq, Hash)]
enum Top {
    Anything,
    Variable,
    Atom(Atom),
}

/// A class, one of its parameters, and what stands at the head of the argument for it.
#[derive(Clone, Copy, PartialEq, Eq, Hash)]
struct Key {
    class: u32,
    parameter: usize,
    top: Top,
}

/// An instance, and the entry of the next one with the same key.
#[derive(Clone, Copy)]
struct Entry {
    instance: usize,
    next: Option<usize>,
}

/// The instances of each class, by what stands at the heads of their arguments.
#[derive(Drop)]
pub struct InstanceIndex {
    first: IndexMap<Key, usize>,
    entries: Vec<Entry>,
}

/// The form at the head of the type at a place, under all its arguments.
pub fn form_at_head(types: &Types, place: usize) -> Option<Form> {
    let mut at = place;
    for _ in 0..types.len() {
        match form_at(types, at) {
            Some(Form::Apply(function, _)) => at = function,
            other => return other,
        }
    }
    None
}

/// The form at the head of a type, under all its arguments, as far as it is known.
pub fn form_at_top(types: &UniqueTypes, place: usize) -> Option<Form> {
    let mut at = place;
    for _ in 0..types.len() {
        match types.form(at) {
            Some(Form::Apply(function, _)) => at = function,
            other => return other,
        }
    }
    None
}

/// What stands at the head of an argument of an instance.
fn top_of(types: &Types, place: usize) -> Top {
    match form_at_head(types, place) {
        Some(Form::Leaf(Atom::Var(_))) => Top::Variable,
        Some(Form::Leaf(atom)) => Top::Atom(atom),
        _ => Top::Variable,
    }
}

impl InstanceIndex {
    /// The index of a table, in time that is linear in its classes and the arguments of its instances.
    pub fn of(alloc: Global, table: &ClassTable) -> Result<InstanceIndex, Memory> {
        let mut index = InstanceIndex {
            first: IndexMap::new(alloc),
            entries: Vec::new(alloc),
        };
        for number in (0..table.instances.len()).rev() {
            if let Some(instance) = table.instances.as_slice().get(number) {
                index.put(&table.types, number, instance)?;
            }
        }
        Ok(index)
    }

    /// Puts an instance before the others of its class.
    fn put(&mut self, types: &Types, number: usize, instance: &InstanceDecl) -> Result<(), Memory> {
        let class = instance.class;
        self.put_first(
            number,
            Key {
                class,
                parameter: 0,
                top: Top::Anything,
            },
        )?;
        for (parameter, place) in instance.head.as_slice().iter().enumerate() {
            let top = top_of(types, *place);
            self.put_first(
                number,
                Key {
                    class,
                    parameter,
                    top,
                },
            )?;
        }
        Ok(())
    }

    /// Puts an instance before the others with a key.
    fn put_first(&mut self, instance: usize, key: Key) -> Result<(), Memory> {
        let next = self.first.get(&key).copied();
        let place = self.entries.len();
        self.entries.push(Entry { instance, next })?;
        self.first.insert(key, place)?;
        Ok(())
    }

    /// Puts the instances with a key, in text order, at the end of a list.
    fn put_all(&self, key: Key, all: &mut Vec<usize>) -> Result<(), Memory> {
        let mut at = self.first.get(&key).copied();
        for _ in 0..self.entries.len() {
            let Some(entry) = at.and_then(|place| self.entries.get(place)).copied() else {
                return Ok(());
            };
            all.push(entry.instance)?;
            at = entry.next;
        }
        Ok(())
    }

    /// All instances of a class, in text order.
    pub fn all(&self, alloc: Global, class: u32) -> Result<Vec<usize>, Memory> {
        let mut all = Vec::new(alloc);
        let key = Key {
            class,
            parameter: 0,
            top: Top::Anything,
        };
        self.put_all(key, &mut all)?;
        Ok(all)
    }

    /// The instances of a class that may have an argument for a parameter with this form at its head, which is no unknown:
    /// those that have the same one there, and those that have a variable there.
    pub fn candidates(
        &self,
        alloc: Global,
        class: u32,
        parameter: usize,
        form: Option<Form>,
    ) -> Result<Vec<usize>, Memory> {
        let mut all = Vec::new(alloc);
        if let Some(Form::Leaf(atom)) = form {
            let top = Top::Atom(atom);
            self.put_all(
                Key {
                    class,
                    parameter,
                    top,
                },
                &mut all,
            )?;
        }
        let top = Top::Variable;
        self.put_all(
            Key {
                class,
                parameter,
                top,
            },
            &mut all,
        )?;
        Ok(all)
    }

    /// The instances of a class that may have a common instance with one whose argument for a parameter stands at a place.
    pub fn rivals(
        &self,
        alloc: Global,
        types: &Types,
        class: u32,
        parameter: usize,
        place: usize,
    ) -> Result<Vec<usize>, Memory> {
        match form_at_head(types, place) {
            Some(Form::Leaf(Atom::Var(_))) => self.all(alloc, class),
            form => self.candidates(alloc, class, parameter, form),
        }
    }
}
