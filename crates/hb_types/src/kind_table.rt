ghost use Rattle.std.specs.Prelude.{◌≡◌, ◌<◌, ◌≤◌, ◌-◌, ◌++◌, ◌∷◌, [], length, IfOk, OnOk, OnErr};
ghost use Rattle.hb_types.specs.KindTables.{kind_at, kind_built, moved_kind, HasKindsBelow};

use hb_base::Memory;
use std::alloc::Global;
use std::marker::Model;

/// The form of a kind: of types, of numbers, of areas, or of constructors from the first kind to the second, both by
/// their places in a table.
#[derive(Clone, Copy, Debug, PartialEq, Eq)]
pub enum KindForm {
    Star,
    Nat,
    Area,
    Arrow(usize, usize),
}

/// A table of kinds that share their parts. Contracts see it as the list of its kinds: a kind is named by its place,
/// and its parts stand before it. Nothing here goes down a kind, however deep it is.
#[derive(Debug, Drop)]
pub struct Kinds {
    forms: Vec<KindForm>,
}

impl Model for Kinds {
    ghost use Rattle.std.specs.Prelude.{List};
    ghost use Rattle.hb_types.specs.Kinds.{Kind};
    ghost use Rattle.hb_types.specs.KindCodes.{coded_kinds};

    ghost Value = { List Kind };

    ghost coded = { coded_kinds };

    ghost use Rattle.hb_types.specs.KindTables.{kinds_of, AreKindsLaid};

    ghost view = { λ t. kinds_of t.forms.items };

    ghost invariant = { λ t. AreKindsLaid t.forms.items };
}

/// A form with its parts as much further on as the form itself, which goes from one place to another.
pub fn moved(form: KindForm, from: usize, to: usize) -> KindForm
    requires parts { HasKindsBelow from form }
    requires on { from ≤ to }
    ensures { result ≡ moved_kind (to - from) form }
{
    match form {
        KindForm::Arrow(a, b) => KindForm::Arrow(to - (from - a), to - (from - b)),
        KindForm::Star | KindForm::Nat | KindForm::Area => form,
    }
}

impl Kinds {
    /// A table without kinds.
    pub fn new(alloc: Global) -> Kinds
        ensures { result ≡ [] }
    {
        Kinds {
            forms: Vec::new(alloc),
        }
    }

    /// How many kinds there are.
    pub fn len(&self) -> usize
        ensures { result ≡ length self.now }
    {
        self.forms.len()
    }

    /// The form of the kind at a place.
    pub fn form(&self, place: usize) -> KindForm
        requires { place < length self.now }
        ensures is { kind_at self.now place ≡ kind_built self.now result }
        ensures parts { HasKindsBelow place result }
    {
        self.forms[place]
    }

    /// Puts a kind at the end, and answers its place. After `Memory` the table is as it was.
    pub fn push(&mut self, form: KindForm) -> Result<usize, Memory>
        requires { HasKindsBelow (length self.old) form }
        ensures place { IfOk result (λ place. place ≡ length self.old) }
        ensures ok { OnOk result (self.new ≡ self.old ++ kind_built self.old form ∷ []) }
        ensures err { OnErr result (self.new ≡ self.old) }
    {
        let place = self.forms.len();
        self.forms.push(form)?;
        Ok(place)
    }

    /// Puts all kinds of another table at the end, in their order.
    pub fn append(&mut self, of: &Kinds) -> Result<(), Memory>
        ensures { OnOk result (self.new ≡ self.old ++ of.now) }
    {
        for place in 0..of.len() {
            let form = moved(of.form(place), place, self.len());
            self.push(form)?;
        }
        Ok(())
    }
}
