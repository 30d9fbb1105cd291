ghost use Rattle.std.specs.Prelude.{◌≡◌, ◌<◌, ℕ, [], ◌∷◌, length, IfOk, IfErr, OnErr, OnOk};
ghost use Rattle.hb_types.specs.Finite.{Finite};
ghost use Rattle.hb_types.specs.Types as tree;
ghost use Rattle.hb_types.specs.Tables.{type_at, built, HasPartsBelow};
ghost use Rattle.hb_unknowns.specs.Full.{AreFull};
ghost use Rattle.hb_unknowns.specs.Graph.{AreWithin};
ghost use Rattle.hb_unknowns.specs.Normal.{AreNormal};
ghost use Rattle.hb_unknowns.specs.Equations.{type_count, Solves, IsOwn, IsPut, IsEquated, AreEquated, HasNoSolution, HaveNoSolution, OnClash, equations, node_of};

use crate::error::EquateError;
use crate::full::{FullTypes, replace_all};
use crate::node::{Entry, Node, Pair};
use crate::normal::{NormalTypes, node_types};
use crate::order::Mark;
use crate::referred::refer;
use crate::taking::take_in;
use hb_base::{List, Memory};
use hb_types::{Atom, Form, Kind, Types};
use std::alloc::Global;
use std::marker::Model;

/// The level of a node to which none is linked.
const LOWEST: u64 = 63;

/// A table of types with unknowns, and the equations between them that were taken in. A type is named by its place.
#[derive(Drop)]
pub struct Unknowns {
    alloc: Global,
    types: Types,
    entries: Vec<Entry>,
    marks: Vec<Mark>,
    /// Of which nodes others speak, or may have spoken.
    referred: Vec<bool>,
}

impl Model for Unknowns {
    ghost use Rattle.hb_types.specs.TypeCodes.{coded_types};
    ghost use Rattle.hb_unknowns.specs.Order.{AreClear};
    ghost use Rattle.hb_unknowns.specs.Referred.{AreReferred};
    ghost use Rattle.hb_unknowns.specs.Equations.{Equations, IsSound, equations};

    ghost Value = { Equations };

    ghost use Rattle.hb_unknowns.specs.EquationCodes.{coded_equations};

    ghost coded = { coded_equations };

    ghost view = { λ u. equations u.types u.entries.items };

    ghost invariant = { λ u. IsSound (equations u.types u.entries.items) × AreClear u.entries.items u.marks.items × AreReferred u.entries.items u.referred.items };
}

/// What the graph knows of a type at first.
fn node_of(form: Form) -> Node
    ensures { result ≡ node_of form }
{
    match form {
        Form::Unknown(_) => Node::Free,
        Form::Leaf(atom) => Node::Leaf(atom),
        Form::Apply(f, x) => Node::Apply(f, x),
    }
}

impl Unknowns {
    /// No types, and no equations.
    pub fn new(alloc: Global) -> Unknowns
        ensures none { result.types ≡ [] }
        ensures solved { (s : ℕ → Finite) → Solves s result }
    {
        Unknowns {
            alloc,
            types: Types::new(alloc),
            entries: Vec::new(alloc),
            marks: Vec::new(alloc),
            referred: Vec::new(alloc),
        }
    }

    /// How many types there are: they are named by their places, from 0.
    pub fn len(&self) -> usize
        ensures { result ≡ type_count self.now }
    {
        self.types.len()
    }

    fn push(&mut self, form: Form) -> Result<usize, Memory>
        requires parts { HasPartsBelow (type_count self.old) form }
        requires own { IsOwn (type_count self.old) form }
        ensures ok { IfOk result (IsPut self.old self.new (built self.old.types form)) }
        ensures same { OnErr result (self.new ≡ self.old) }
    {
        let entry = Entry {
            node: node_of(form),
            level: LOWEST,
        };
        self.entries.push(entry)?;
        match self.marks.push(Mark::New) {
            Ok(()) => {}
            Err(_) => {
                let _ = self.entries.pop();
                return Err(Memory);
            }
        }
        match self.referred.push(false) {
            Ok(()) => {}
            Err(_) => {
                let _ = self.entries.pop();
                let _ = self.marks.pop();
                return Err(Memory);
            }
        }
        match self.types.push(form) {
            Ok(place) => {
                refer(&mut self.referred, entry.node);
                Ok(place)
            }
            Err(memory) => {
                let _ = self.entries.pop();
                let _ = self.marks.pop();
                let _ = self.referred.pop();
                Err(memory)
            }
        }
    }

    /// One more unknown, by its place, which is its number. Its kind takes no part in the equations. After `Memory`
    /// all is as before.
    pub fn fresh(&mut self, kind: Kind) -> Result<usize, Memory>
        ensures fresh { IfOk result (λ place. IsPut self.old self.new (tree.Unknown place) place) }
        ensures same { OnErr result (self.new ≡ self.old) }
    {
        drop(kind);
        let number = self.len();
        let place = self.push(Form::Unknown(number as u64))?;
        Ok(place)
    }

    /// A type without parts, by its place. After `Memory` all is as before.
    pub fn leaf(&mut self, atom: Atom) -> Result<usize, Memory>
        ensures ok { IfOk result (IsPut self.old self.new (tree.Leaf atom)) }
        ensures same { OnErr result (self.new ≡ self.old) }
    {
        let place = self.push(Form::Leaf(atom))?;
        Ok(place)
    }

    /// A type applied to one more type, by its place. After `Memory` all is as before.
    pub fn apply(&mut self, f: usize, x: usize) -> Result<usize, Memory>
        requires f_known { f < type_count self.old }
        requires x_known { x < type_count self.old }
        ensures ok { IfOk result (IsPut self.old self.new (tree.Apply (type_at self.old.types f) (type_at self.old.types x))) }
        ensures same { OnErr result (self.new ≡ self.old) }
    {
        let place = self.push(Form::Apply(f, x))?;
        Ok(place)
    }

    /// Takes in one equation. `Clash` comes exactly where no finite types make the equations so far and this one
    /// true. After `Clash` or `Memory` all is as before.
    pub fn equate(&mut self, a: usize, b: usize) -> Result<(), EquateError>
        requires a_known { a < type_count self.old }
        requires b_known { b < type_count self.old }
        ensures ok { OnOk result (IsEquated self.old a b self.new) }
        ensures clash { IfErr result (λ e. OnClash e (HasNoSolution self.old a b)) }
        ensures same { OnErr result (self.new ≡ self.old) }
    {
        let mut pending = Vec::new(self.alloc);
        match pending.push(Pair { left: a, right: b }) {
            Ok(()) => {}
            Err(_) => return Err(EquateError::Memory),
        }
        match take_in(
            self.alloc,
            &mut self.entries,
            &mut self.marks,
            &mut self.referred,
            &mut pending,
        ) {
            Ok(true) => Ok(()),
            Ok(false) => Err(EquateError::Clash),
            Err(_) => Err(EquateError::Memory),
        }
    }

    /// Takes in many equations at once, in time that is near linear in the types. `Clash` comes exactly where no
    /// finite types make the equations so far and these true. After `Clash` or `Memory` all is as before.
    pub fn equate_all(&mut self, pairs: &[Pair]) -> Result<(), EquateError>
        requires known { AreWithin (type_count self.old) pairs.now }
        ensures ok { OnOk result (AreEquated self.old pairs.now self.new) }
        ensures clash { IfErr result (λ e. OnClash e (HaveNoSolution self.old pairs.now)) }
        ensures same { OnErr result (self.new ≡ self.old) }
    {
        let Ok(mut pending) = Vec::from_slice(self.alloc, pairs) else {
            return Err(EquateError::Memory);
        };
        match take_in(
            self.alloc,
            &mut self.entries,
            &mut self.marks,
            &mut self.referred,
            &mut pending,
        ) {
            Ok(true) => Ok(()),
            Ok(false) => Err(EquateError::Clash),
            Err(_) => Err(EquateError::Memory),
        }
    }

    /// The types of all places with each unknown that the equations force to a type without unknowns replaced by that
    /// type. Every other unknown stays.
    pub fn full(&self, alloc: Global) -> Result<FullTypes, Memory>
        ensures full { IfOk result (λ r. AreFull self.now r.types r.places) }
    {
        let mut types = Types::new(alloc);
        let places = replace_all(alloc, &self.types, &self.entries, &mut types)?;
        Ok(FullTypes {
            types,
            places: List::of(places),
        })
    }

    /// The types of all places with each unknown that was equated replaced as far as it is known: of several open ones
    /// that were equated, one stands for all. Two places have the same type in all solutions exactly where their normal
    /// types are the same.
    pub fn normal(&self, alloc: Global) -> Result<NormalTypes, Memory>
        ensures normal { IfOk result (λ r. AreNormal self.now r.types r.places) }
    {
        let mut types = Types::new(alloc);
        let places = node_types(alloc, &self.entries, &mut types)?;
        Ok(NormalTypes {
            types,
            places: List::of(places),
        })
    }
}
