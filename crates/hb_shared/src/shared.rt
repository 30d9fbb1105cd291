ghost use Rattle.std.specs.Prelude.{IsTrue};
ghost use Rattle.hb_types.specs.Tables.{HasPartsBelow};

use hb_base::Memory;
use hb_types::{Atom, Form, Types};
use indexmap::IndexMap;
use std::alloc::Global;

/// A table of types in which no type stands twice: two of its places have one type only where they are one place. Parts stand before
/// the whole.
#[derive(Drop)]
pub struct SharedTypes {
    types: Types,
    known: IndexMap<Form, usize>,
}

/// The parts of a form stand among so many types.
fn has_parts_below(form: Form, len: usize) -> bool
    ensures { IsTrue result → HasPartsBelow len form }
{
    match form {
        Form::Apply(f, x) => f < len && x < len,
        Form::Unknown(_) | Form::Leaf(_) => true,
    }
}

impl SharedTypes {
    /// A table without types.
    pub fn new(alloc: Global) -> SharedTypes {
        SharedTypes {
            types: Types::new(alloc),
            known: IndexMap::new(alloc),
        }
    }

    pub fn types(&self) -> &Types {
        &self.types
    }

    pub fn into_types(self) -> Types {
        self.types
    }

    /// The form of the type at a place, and `Unknown(0)` where none stands.
    pub fn form(&self, place: usize) -> Form {
        if place < self.types.len() {
            self.types.form(place)
        } else {
            Form::Unknown(0)
        }
    }

    /// The place of a type, which comes in where it is new. A form whose parts do not stand here counts as `Unknown(0)`.
    pub fn put(&mut self, form: Form) -> Result<usize, Memory> {
        if has_parts_below(form, self.types.len()) {
            self.put_sound(form)
        } else {
            self.put_sound(Form::Unknown(0))
        }
    }

    /// Puts a form at the end, and answers its place.
    fn pushed(&mut self, form: Form) -> Result<usize, Memory> {
        let place = self.types.len();
        if has_parts_below(form, place) {
            let _place = self.types.push(form)?;
        }
        Ok(place)
    }

    fn put_sound(&mut self, form: Form) -> Result<usize, Memory> {
        if let Some(place) = self.known.get(&form) {
            return Ok(*place);
        }
        let place = self.pushed(form)?;
        self.known.insert(form, place)?;
        Ok(place)
    }

    /// A type constructor by its number.
    pub fn con(&mut self, number: u32) -> Result<usize, Memory> {
        self.put(Form::Leaf(Atom::Con(number)))
    }

    /// A number.
    pub fn number(&mut self, number: u64) -> Result<usize, Memory> {
        self.put(Form::Leaf(Atom::Nat(number)))
    }

    /// A variable of a scheme.
    pub fn variable(&mut self, number: u32) -> Result<usize, Memory> {
        self.put(Form::Leaf(Atom::Var(number)))
    }

    pub fn apply(&mut self, function: usize, argument: usize) -> Result<usize, Memory> {
        self.put(Form::Apply(function, argument))
    }
}
