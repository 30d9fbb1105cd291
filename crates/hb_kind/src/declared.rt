ghost use Rattle.std.specs.Prelude.{◌<◌, IfOk, OnOk};
ghost use Rattle.hb_unknowns.specs.Equations.{type_count};
ghost use Rattle.hb_kind.specs.Places.{AreFine};

use crate::equations::KindEquations;
use hb_base::{Memory, Name};
use hb_tree::Decl;
use std::alloc::Global;

/// The slots of a class's parameters: the first, and how many there are.
#[derive(Clone, Copy, Debug)]
pub struct Parameters {
    pub first: usize,
    pub count: usize,
}

/// What the names of types and classes mean, by the names' numbers: the slots of their kinds.
#[derive(Drop)]
pub struct Meanings {
    pub types: Vec<Option<usize>>,
    pub classes: Vec<Option<Parameters>>,
}

/// Which kinds are asked for: those of the type constructors in the order of their numbers, and those of the parameters of each
/// declared type and class.
#[derive(Drop)]
pub struct Slots {
    pub constructors: Vec<usize>,
    pub type_parameters: Vec<Parameters>,
    pub class_parameters: Vec<Parameters>,
}

impl Meanings {
    /// No name means anything, of so many names.
    pub fn new(alloc: Global, count: u32) -> Result<Meanings, Memory> {
        let mut types = Vec::new(alloc);
        let mut classes = Vec::new(alloc);
        for _ in 0..count {
            types.push(None)?;
            classes.push(None)?;
        }
        Ok(Meanings { types, classes })
    }

    /// The slot of a type's kind.
    pub fn type_slot(&self, name: Name) -> Option<usize> {
        match self.types.get(name.0 as usize) {
            Some(slot) => *slot,
            None => None,
        }
    }

    /// The slots of a class's parameters.
    pub fn class_slots(&self, name: Name) -> Option<Parameters> {
        match self.classes.get(name.0 as usize) {
            Some(slots) => *slots,
            None => None,
        }
    }

    fn set_type(&mut self, name: Name, slot: usize) {
        if let Some(entry) = self.types.get_mut(name.0 as usize) {
            *entry = Some(slot);
        }
    }

    fn set_class(&mut self, name: Name, slots: Parameters) {
        if let Some(entry) = self.classes.get_mut(name.0 as usize) {
            *entry = Some(slots);
        }
    }
}

/// The kind of a built-in type, by its name's number.
#[derive(Clone, Copy)]
enum BuiltIn {
    Star,
    OfNat,
    OfStar,
    OfArea,
    OfStars,
    StarToArea,
    OfNatAndArea,
}

/// The built-in types in the order of their numbers, each with its name and its kind. The arrow has no name.
const BUILT_IN: [(Option<u32>, BuiltIn); 13] = [
    (Some(8), BuiltIn::Star),
    (Some(9), BuiltIn::Star),
    (Some(10), BuiltIn::OfNat),
    (Some(11), BuiltIn::OfNat),
    (Some(12), BuiltIn::OfStar),
    (Some(13), BuiltIn::OfStar),
    (Some(1), BuiltIn::OfStar),
    (Some(2), BuiltIn::OfStar),
    (Some(14), BuiltIn::OfArea),
    (None, BuiltIn::OfStars),
    (Some(15), BuiltIn::StarToArea),
    (Some(16), BuiltIn::StarToArea),
    (Some(17), BuiltIn::OfNatAndArea),
];

/// The kind of a built-in type, by its place.
fn built_in_kind(equations: &mut KindEquations, form: BuiltIn) -> Result<usize, Memory>
    requires fine { AreFine equations.old }
    ensures fine { OnOk result (AreFine equations.new) }
    ensures known { IfOk result (λ place. place < type_count equations.new.unknowns) }
{
    let star = equations.star;
    let nat = equations.nat;
    let area = equations.area;
    match form {
        BuiltIn::Star => Ok(star),
        BuiltIn::OfNat => equations.arrow(nat, star),
        BuiltIn::OfStar => equations.arrow(star, star),
        BuiltIn::OfArea => equations.arrow(area, star),
        BuiltIn::OfStars => {
            let rest = equations.arrow(star, star)?;
            equations.arrow(star, rest)
        }
        BuiltIn::StarToArea => equations.arrow(star, area),
        BuiltIn::OfNatAndArea => {
            let rest = equations.arrow(area, area)?;
            equations.arrow(nat, rest)
        }
    }
}

/// Kinds for so many parameters, in slots one after another.
fn new_parameters(equations: &mut KindEquations, count: usize) -> Result<Parameters, Memory>
    requires fine { AreFine equations.old }
    ensures fine { OnOk result (AreFine equations.new) }
{
    let first = equations.places.len();
    for _number in 0..count {
        let place = equations.unknown()?;
        equations.keep(place)?;
    }
    Ok(Parameters { first, count })
}

/// The kind from those of parameters to that of types.
fn constructor_kind(equations: &mut KindEquations, slots: Parameters) -> Result<usize, Memory>
    requires fine { AreFine equations.old }
    ensures fine { OnOk result (AreFine equations.new) }
    ensures known { IfOk result (λ place. place < type_count equations.new.unknowns) }
{
    let mut kind = equations.star;
    for place in (0..slots.count).rev() {
        let from = equations.kept(slots.first.saturating_add(place));
        kind = equations.arrow(from, kind)?;
    }
    Ok(kind)
}

/// What is declared, and its kinds.
#[derive(Drop)]
pub struct Declared {
    pub meanings: Meanings,
    pub slots: Slots,
}

impl Declared {
    /// The built-in types, of so many names.
    fn built_in(
        alloc: Global,
        equations: &mut KindEquations,
        count: u32,
    ) -> Result<Declared, Memory>
        requires fine { AreFine equations.old }
        ensures fine { OnOk result (AreFine equations.new) }
    {
        let mut meanings = Meanings::new(alloc, count)?;
        let mut constructors = Vec::new(alloc);
        for entry in &BUILT_IN {
            let (name, form) = *entry;
            let place = built_in_kind(equations, form)?;
            let slot = equations.keep(place)?;
            constructors.push(slot)?;
            if let Some(number) = name {
                meanings.set_type(Name(number), slot);
            }
        }
        Ok(Declared {
            meanings,
            slots: Slots {
                constructors,
                type_parameters: Vec::new(alloc),
                class_parameters: Vec::new(alloc),
            },
        })
    }

    /// A declared type of this kind, and its parameters.
    fn put_type(
        &mut self,
        equations: &mut KindEquations,
        name: Name,
        place: usize,
        parameters: Parameters,
    ) -> Result<(), Memory>
        requires fine { AreFine equations.old }
        requires known { place < type_count equations.old.unknowns }
        ensures fine { OnOk result (AreFine equations.new) }
    {
        let slot = equations.keep(place)?;
        self.slots.constructors.push(slot)?;
        self.slots.type_parameters.push(parameters)?;
        self.meanings.set_type(name, slot);
        Ok(())
    }

    /// What one declaration declares.
    fn put(&mut self, equations: &mut KindEquations, decl: &Decl) -> Result<(), Memory>
        requires fine { AreFine equations.old }
        ensures fine { OnOk result (AreFine equations.new) }
    {
        match decl {
            Decl::Data(_, name, params, _) => {
                let slots = new_parameters(equations, params.len())?;
                let kind = constructor_kind(equations, slots)?;
                self.put_type(equations, name.name, kind, slots)
            }
            Decl::Bitdata(_, name, _, _) => {
                let slots = new_parameters(equations, 0)?;
                let star = equations.star;
                self.put_type(equations, name.name, star, slots)
            }
            Decl::Struct(_, name, _, _) => {
                let slots = new_parameters(equations, 0)?;
                let area = equations.area;
                self.put_type(equations, name.name, area, slots)
            }
            Decl::Class(_, _, name, params, _, _) => {
                let slots = new_parameters(equations, params.len())?;
                self.slots.class_parameters.push(slots)?;
                self.meanings.set_class(name.name, slots);
                Ok(())
            }
            _ => Ok(()),
        }
    }
}

/// All that declarations declare, of so many names.
pub fn declare(
    alloc: Global,
    equations: &mut KindEquations,
    count: u32,
    decls: &[Decl],
) -> Result<Declared, Memory>
    requires fine { AreFine equations.old }
    ensures fine { OnOk result (AreFine equations.new) }
{
    let mut declared = Declared::built_in(alloc, equations, count)?;
    for decl in decls {
        declared.put(equations, decl)?;
    }
    Ok(declared)
}
