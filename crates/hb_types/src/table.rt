ghost use Rattle.std.specs.Prelude.{◌≡◌, ◌<◌, ◌≤◌, ◌-◌, ◌++◌, ◌∷◌, [], length, IfOk, OnOk, OnErr};
ghost use Rattle.hb_types.specs.Tables.{type_at, built, moved, Extends, HasPartsBelow};

use crate::atom::Atom;
use hb_base::Memory;
use std::alloc::Global;
use std::marker::Model;

/// The form of a type in a table: an unknown that is still to be found, a type without parts, or a type applied to
/// one more type, both by their places in the table.
#[derive(Clone, Copy, Debug, PartialEq, Eq, Hash)]
pub enum Form {
    Unknown(u64),
    Leaf(Atom),
    Apply(usize, usize),
}

/// A table of types that share their parts. Contracts see it as the list of its types: a type is named by its place,
/// its parts stand before it, and a place keeps its type. Nothing here goes down a type, however deep it is.
#[derive(Debug, Drop)]
pub struct Types {
    forms: Vec<Form>,
}

impl Model for Types {
    ghost use Rattle.std.specs.Prelude.{List};
    ghost use Rattle.hb_types.specs.Types.{Ty};
    ghost use Rattle.hb_types.specs.TypeCodes.{coded_types};

    ghost Value = { List Ty };

    ghost coded = { coded_types };

    ghost use Rattle.hb_types.specs.Tables.{types_of, AreLaid};

    ghost view = { λ t. types_of t.forms.items };

    ghost invariant = { λ t. AreLaid t.forms.items };
}

/// A form with its parts as much further on as the form itself, which goes from one place to another.
fn moved(form: Form, from: usize, to: usize) -> Form
    requires parts { HasPartsBelow from form }
    requires on { from ≤ to }
    ensures { result ≡ moved (to - from) form }
{
    match form {
        Form::Apply(f, x) => Form::Apply(to - (from - f), to - (from - x)),
        Form::Unknown(_) | Form::Leaf(_) => form,
    }
}

impl Types {
    /// A table without types.
    pub fn new(alloc: Global) -> Types
        ensures { result ≡ [] }
    {
        Types {
            forms: Vec::new(alloc),
        }
    }

    /// How many types there are.
    pub fn len(&self) -> usize
        ensures { result ≡ length self.now }
    {
        self.forms.len()
    }

    /// The form of the type at a place.
    pub fn form(&self, place: usize) -> Form
        requires { place < length self.now }
        ensures is { type_at self.now place ≡ built self.now result }
        ensures parts { HasPartsBelow place result }
    {
        self.forms[place]
    }

    /// Puts a type at the end, and answers its place. After `Memory` the table is as it was.
    pub fn push(&mut self, form: Form) -> Result<usize, Memory>
        requires { HasPartsBelow (length self.old) form }
        ensures place { IfOk result (λ place. place ≡ length self.old) }
        ensures ok { OnOk result (self.new ≡ self.old ++ built self.old form ∷ []) }
        ensures err { OnErr result (self.new ≡ self.old) }
    {
        let place = self.forms.len();
        self.forms.push(form)?;
        Ok(place)
    }

    /// Puts all types of another table at the end, in their order. After `Memory` the first of them stand there.
    pub fn append(&mut self, of: &Types) -> Result<(), Memory>
        ensures ok { OnOk result (self.new ≡ self.old ++ of.now) }
        ensures more { Extends self.old self.new }
    {
        for place in 0..of.len() {
            let form = moved(of.form(place), place, self.len());
            self.push(form)?;
        }
        Ok(())
    }
}
