ghost use Rattle.std.specs.Prelude.{◌≡◌, ◌<◌, ◌≤◌, IfOk, OnOk};
ghost use Rattle.hb_unknowns.specs.Equations.{type_count};
ghost use Rattle.hb_tree.specs.Types.{type_size};
ghost use Rattle.hb_kind.specs.Places.{AreFine};
ghost use Rattle.hb_kind.specs.Wholes.{has_sum};

use crate::declared::{Meanings, Parameters};
use crate::equations::KindEquations;
use hb_base::{List, Memory, Name, Place};
use hb_tree::{
    BitCon, BitPart, DataCon, Decl, NameAt, PredExpr, Sig, StructPart, TypeExpr, TypeKind,
};
use std::alloc::Global;

/// The names that `()` and pairs stand for.
const UNIT: Name = Name(23);

const PAIR: Name = Name(24);

/// The variables of a group of types, by their names' numbers: the slots of their kinds.
#[derive(Drop)]
pub struct Variables {
    slots: Vec<Option<usize>>,
    bound: Vec<Name>,
}

impl Variables {
    /// No variables, of so many names.
    pub fn new(alloc: Global, count: u32) -> Result<Variables, Memory> {
        let mut slots = Vec::new(alloc);
        for _ in 0..count {
            slots.push(None)?;
        }
        Ok(Variables {
            slots,
            bound: Vec::new(alloc),
        })
    }

    fn slot(&self, name: Name) -> Option<usize> {
        match self.slots.get(name.0 as usize) {
            Some(slot) => *slot,
            None => None,
        }
    }

    fn bind(&mut self, name: Name, slot: usize) -> Result<(), Memory> {
        if let Some(entry) = self.slots.get_mut(name.0 as usize) {
            *entry = Some(slot);
        }
        self.bound.push(name)?;
        Ok(())
    }

    /// A new group: no variable is known.
    fn clear(&mut self) {
        for name in &self.bound {
            if let Some(entry) = self.slots.get_mut(name.0 as usize) {
                *entry = None;
            }
        }
        self.bound.clear();
    }

    /// The parameters of a declared type or class are variables; where a name comes twice, the first one counts.
    fn bind_all(&mut self, params: &[NameAt], slots: Parameters) -> Result<(), Memory> {
        for (place, param) in params.iter().enumerate().rev() {
            self.bind(param.name, slots.first.saturating_add(place))?;
        }
        Ok(())
    }
}

/// A whole type: its place, whether it has a sum where none may stand, and how many equations there are up to it.
#[derive(Clone, Copy, Debug)]
pub struct Whole {
    pub place: Place,
    pub wrong_sum: bool,
    pub end: usize,
}

/// What kind a whole type is to have.
#[derive(Clone, Copy)]
enum Wanted {
    Star,
    Nat,
    Area,
    Slot(usize),
    Any,
    Never,
}

/// A sum stands in the type.
fn has_sum(t: &TypeExpr) -> bool
    ensures { result ≡ has_sum t.now }
{
    match &t.kind {
        TypeKind::Con(_) => false,
        TypeKind::Var(_) => false,
        TypeKind::Number(_) => false,
        TypeKind::Unit => false,
        TypeKind::Pair(a, b) => has_sum(a) || has_sum(b),
        TypeKind::Apply(f, x) => has_sum(f) || has_sum(x),
        TypeKind::Arrow(a, b) => has_sum(a) || has_sum(b),
        TypeKind::Sum(_, _) => true,
    }
}

/// The walk over the types of a program.
#[derive(Drop)]
pub struct Walk {
    pub equations: KindEquations,
    pub meanings: Meanings,
    pub variables: Variables,
    pub wholes: Vec<Whole>,
}

impl Walk {
    /// The kind that a type's name has, by its place.
    fn named(&mut self, name: Name) -> Result<usize, Memory>
        requires fine { AreFine self.old.equations }
        ensures fine { OnOk result (AreFine self.new.equations) }
        ensures known { IfOk result (λ place. place < type_count self.new.equations.unknowns) }
        ensures grows { OnOk result (type_count self.old.equations.unknowns ≤ type_count self.new.equations.unknowns) }
    {
        match self.meanings.type_slot(name) {
            Some(slot) => Ok(self.equations.kept(slot)),
            None => {
                self.equations.never()?;
                Ok(self.equations.star)
            }
        }
    }

    /// The kind of a variable, by its place.
    fn variable(&mut self, name: Name) -> Result<usize, Memory>
        requires fine { AreFine self.old.equations }
        ensures fine { OnOk result (AreFine self.new.equations) }
        ensures known { IfOk result (λ place. place < type_count self.new.equations.unknowns) }
        ensures grows { OnOk result (type_count self.old.equations.unknowns ≤ type_count self.new.equations.unknowns) }
    {
        match self.variables.slot(name) {
            Some(slot) => Ok(self.equations.kept(slot)),
            None => {
                let place = self.equations.unknown()?;
                let slot = self.equations.keep(place)?;
                self.variables.bind(name, slot)?;
                Ok(place)
            }
        }
    }

    /// The kind of a type, by its place, with the equations of its parts.
    fn kind(&mut self, t: &TypeExpr) -> Result<usize, Memory>
        requires fine { AreFine self.old.equations }
        ensures fine { OnOk result (AreFine self.new.equations) }
        ensures known { IfOk result (λ place. place < type_count self.new.equations.unknowns) }
        ensures grows { OnOk result (type_count self.old.equations.unknowns ≤ type_count self.new.equations.unknowns) }
    {
        match &t.kind {
            TypeKind::Con(name) => self.named(*name),
            TypeKind::Var(name) => self.variable(*name),
            TypeKind::Number(_) => Ok(self.equations.nat),
            TypeKind::Unit => self.named(UNIT),
            TypeKind::Pair(a, b) => {
                let first = self.kind(a)?;
                let second = self.kind(b)?;
                let pair = self.named(PAIR)?;
                let half = self.applied(pair, first)?;
                self.applied(half, second)
            }
            TypeKind::Apply(f, x) => {
                let function = self.kind(f)?;
                let argument = self.kind(x)?;
                self.applied(function, argument)
            }
            TypeKind::Arrow(a, b) => {
                let from = self.kind(a)?;
                let star = self.equations.star;
                self.equations.same(from, star)?;
                let to = self.kind(b)?;
                self.equations.same(to, star)?;
                Ok(star)
            }
            TypeKind::Sum(a, b) => {
                let left = self.kind(a)?;
                let nat = self.equations.nat;
                self.equations.same(left, nat)?;
                let right = self.kind(b)?;
                self.equations.same(right, nat)?;
                Ok(nat)
            }
        }
    }

    /// The kind of what a type of the first kind makes of one of the second.
    fn applied(&mut self, function: usize, argument: usize) -> Result<usize, Memory>
        requires fine { AreFine self.old.equations }
        requires function_known { function < type_count self.old.equations.unknowns }
        requires argument_known { argument < type_count self.old.equations.unknowns }
        ensures fine { OnOk result (AreFine self.new.equations) }
        ensures known { IfOk result (λ place. place < type_count self.new.equations.unknowns) }
        ensures grows { OnOk result (type_count self.old.equations.unknowns ≤ type_count self.new.equations.unknowns) }
    {
        let to = self.equations.unknown()?;
        let whole = self.equations.arrow(argument, to)?;
        self.equations.same(function, whole)?;
        Ok(to)
    }
}

impl Walk {
    /// A whole type.
    fn whole(&mut self, signed: bool, wanted: Wanted, t: &TypeExpr) -> Result<(), Memory>
        requires fine { AreFine self.old.equations }
        ensures fine { OnOk result (AreFine self.new.equations) }
    {
        let kind = self.kind(t)?;
        match wanted {
            Wanted::Star => {
                let star = self.equations.star;
                self.equations.same(kind, star)?;
            }
            Wanted::Nat => {
                let nat = self.equations.nat;
                self.equations.same(kind, nat)?;
            }
            Wanted::Area => {
                let area = self.equations.area;
                self.equations.same(kind, area)?;
            }
            Wanted::Slot(slot) => {
                let wanted = self.equations.kept(slot);
                self.equations.same(kind, wanted)?;
            }
            Wanted::Any => {}
            Wanted::Never => self.equations.never()?,
        }
        self.wholes.push(Whole {
            place: t.place,
            wrong_sum: !signed && has_sum(t),
            end: self.equations.pairs.len(),
        })?;
        Ok(())
    }

    /// Whole types that are all to have one kind.
    fn all(&mut self, wanted: Wanted, types: &[TypeExpr]) -> Result<(), Memory>
        requires fine { AreFine self.old.equations }
        ensures fine { OnOk result (AreFine self.new.equations) }
    {
        for t in types {
            self.whole(false, wanted, t)?;
        }
        Ok(())
    }

    /// The arguments of a predicate of which so much is wanted. Where there are too few or too many, the last fits nothing.
    fn arguments(&mut self, signed: bool, wants: Wants, args: &[TypeExpr]) -> Result<(), Memory>
        requires fine { AreFine self.old.equations }
        ensures fine { OnOk result (AreFine self.new.equations) }
    {
        let count = wants.count();
        let mut place: usize = 0;
        for t in args {
            let is_last = place.saturating_add(1) == args.len();
            let wanted = if is_last && args.len() != count {
                Wanted::Never
            } else {
                wants.at(place)
            };
            self.whole(signed, wanted, t)?;
            place = place.saturating_add(1);
        }
        Ok(())
    }

    /// What is wanted of the arguments of a predicate.
    fn wants(&self, name: Name) -> Wants {
        match self.meanings.class_slots(name) {
            Some(slots) => Wants::Parameters(slots),
            None => built_in(name),
        }
    }

    /// The types of a predicate.
    fn predicate(&mut self, signed: bool, p: &PredExpr) -> Result<(), Memory>
        requires fine { AreFine self.old.equations }
        ensures fine { OnOk result (AreFine self.new.equations) }
    {
        match p {
            PredExpr::Class(at, args) => self.arguments(
                signed,
                self.wants(at.name),
                args.as_slice(),
            ),
            PredExpr::Sum(a, b, c) | PredExpr::Product(a, b, c) => {
                self.whole(signed, Wanted::Nat, a)?;
                self.whole(signed, Wanted::Nat, b)?;
                self.whole(signed, Wanted::Nat, c)
            }
            PredExpr::Power(a, b) | PredExpr::AtMost(a, b) => {
                self.whole(signed, Wanted::Nat, a)?;
                self.whole(signed, Wanted::Nat, b)
            }
        }
    }

    fn context(&mut self, signed: bool, preds: &[PredExpr]) -> Result<(), Memory>
        requires fine { AreFine self.old.equations }
        ensures fine { OnOk result (AreFine self.new.equations) }
    {
        for p in preds {
            self.predicate(signed, p)?;
        }
        Ok(())
    }

    fn signature(&mut self, sig: &Sig) -> Result<(), Memory>
        requires fine { AreFine self.old.equations }
        ensures fine { OnOk result (AreFine self.new.equations) }
    {
        self.context(true, sig.context.as_slice())?;
        self.whole(true, Wanted::Star, &sig.body)
    }

    fn data(&mut self, cons: &[DataCon]) -> Result<(), Memory>
        requires fine { AreFine self.old.equations }
        ensures fine { OnOk result (AreFine self.new.equations) }
    {
        for con in cons {
            self.all(Wanted::Star, con.args.as_slice())?;
        }
        Ok(())
    }

    fn bit_parts(&mut self, parts: &[BitPart]) -> Result<(), Memory>
        requires fine { AreFine self.old.equations }
        ensures fine { OnOk result (AreFine self.new.equations) }
    {
        for part in parts {
            if let BitPart::Fields(fields) = part {
                self.whole(false, Wanted::Star, &fields.of)?;
            }
        }
        Ok(())
    }

    fn bitdata(&mut self, cons: &[BitCon]) -> Result<(), Memory>
        requires fine { AreFine self.old.equations }
        ensures fine { OnOk result (AreFine self.new.equations) }
    {
        for con in cons {
            self.bit_parts(con.parts.as_slice())?;
        }
        Ok(())
    }

    fn fields(&mut self, parts: &[StructPart]) -> Result<(), Memory>
        requires fine { AreFine self.old.equations }
        ensures fine { OnOk result (AreFine self.new.equations) }
    {
        for part in parts {
            if let StructPart::Fields(fields) = part {
                self.whole(false, Wanted::Area, &fields.of)?;
            }
        }
        Ok(())
    }

    /// The signatures of a class: each has variables of its own beside the class's parameters.
    fn methods(&mut self, params: &[NameAt], slots: Parameters, sigs: &[Sig]) -> Result<(), Memory>
        requires fine { AreFine self.old.equations }
        ensures fine { OnOk result (AreFine self.new.equations) }
    {
        for sig in sigs {
            self.variables.clear();
            self.variables.bind_all(params, slots)?;
            self.signature(sig)?;
        }
        Ok(())
    }

    /// The types of one declaration; where it declares a type or class with parameters, these are their slots.
    pub fn declaration(&mut self, slots: Parameters, decl: &Decl) -> Result<(), Memory>
        requires fine { AreFine self.old.equations }
        ensures fine { OnOk result (AreFine self.new.equations) }
    {
        self.variables.clear();
        match decl {
            Decl::Sig(sig) => self.signature(sig),
            Decl::Data(_, _, params, cons) => {
                self.variables.bind_all(params.as_slice(), slots)?;
                self.data(cons.as_slice())
            }
            Decl::Bitdata(_, _, _, cons) => self.bitdata(cons.as_slice()),
            Decl::Struct(_, _, _, parts) => self.fields(parts.as_slice()),
            Decl::Area(_, _, _, of, _) => self.whole(false, Wanted::Area, of),
            Decl::Port(_, _, _, of, _, _) => self.whole(false, Wanted::Star, of),
            Decl::Class(_, context, _, params, _, sigs) => {
                self.variables.bind_all(params.as_slice(), slots)?;
                self.context(false, context.as_slice())?;
                self.methods(params.as_slice(), slots, sigs.as_slice())
            }
            Decl::Instance(_, name, types, context, _) => {
                self.arguments(false, self.wants(name.name), types.as_slice())?;
                self.context(false, context.as_slice())
            }
            Decl::Equation(_) | Decl::Fixity(_, _, _, _) => Ok(()),
        }
    }
}

/// What is wanted of the arguments of a predicate: those of a class's parameters, or of at most two kinds.
#[derive(Clone, Copy)]
enum Wants {
    Parameters(Parameters),
    One(Wanted),
    Two(Wanted, Wanted),
}

impl Wants {
    fn count(self) -> usize {
        match self {
            Wants::Parameters(slots) => slots.count,
            Wants::One(_) => 1,
            Wants::Two(_, _) => 2,
        }
    }

    /// What is wanted of the argument at a place; behind the last, anything.
    fn at(self, place: usize) -> Wanted {
        match self {
            Wants::Parameters(slots) => {
                if place < slots.count {
                    Wanted::Slot(slots.first.saturating_add(place))
                } else {
                    Wanted::Any
                }
            }
            Wants::One(first) => { if place == 0 { first } else { Wanted::Any } }
            Wants::Two(first, second) => {
                if place == 0 {
                    first
                } else if place == 1 {
                    second
                } else {
                    Wanted::Any
                }
            }
        }
    }
}

/// What is wanted of the arguments of Width, Index, NumLit, BitRep and Cell, by the name.
fn built_in(name: Name) -> Wants {
    match name.0 {
        20 => Wants::Two(Wanted::Nat, Wanted::Star),
        21 => Wants::Two(Wanted::Star, Wanted::Nat),
        22 => Wants::Two(Wanted::Area, Wanted::Star),
        _ => Wants::One(Wanted::Nat),
    }
}
