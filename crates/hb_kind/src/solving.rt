ghost use Rattle.std.specs.Prelude.{◌≡◌, ◌<◌, ℕ, OnOk};
ghost use Rattle.hb_unknowns.specs.Graph.{AreWithin};
ghost use Rattle.hb_unknowns.specs.Equations.{type_count};
ghost use Rattle.hb_kind.specs.Places.{AreFine};

use crate::declared::{Parameters, Slots, declare};
use crate::equations::KindEquations;
use crate::table::KindTable;
use crate::wholes::{Variables, Walk, Whole};
use hb_base::{Code, Fault, List, Memory, refused};
use hb_resolved::Resolved;
use hb_tree::Decl;
use hb_unknowns::{EquateError, Pair, Unknowns};
use std::alloc::Global;

/// How many types and classes are declared before a declaration.
#[derive(Clone, Copy)]
struct Counts {
    types: usize,
    classes: usize,
}

impl Counts {
    /// The slots of what a declaration declares.
    fn own(self, slots: &Slots, decl: &Decl) -> Parameters {
        let own = match decl {
            Decl::Data(_, _, _, _) => slots.type_parameters.get(self.types),
            Decl::Class(_, _, _, _, _, _) => slots.class_parameters.get(self.classes),
            _ => None,
        };
        match own {
            Some(own) => *own,
            None => Parameters { first: 0, count: 0 },
        }
    }

    /// The counts behind a declaration.
    fn behind(self, decl: &Decl) -> Counts {
        match decl {
            Decl::Data(_, _, _, _) | Decl::Bitdata(_, _, _, _) | Decl::Struct(_, _, _, _) =>
                Counts {
                    types: self.types.saturating_add(1),
                    classes: self.classes,
                },
            Decl::Class(_, _, _, _, _, _) => Counts {
                types: self.types,
                classes: self.classes.saturating_add(1),
            },
            _ => self,
        }
    }
}

/// The types of all declarations.
fn walk_all(walk: &mut Walk, slots: &Slots, decls: &[Decl]) -> Result<(), Memory>
    requires fine { AreFine walk.old.equations }
    ensures fine { OnOk result (AreFine walk.new.equations) }
{
    let mut counts = Counts {
        types: 0,
        classes: 0,
    };
    for decl in decls {
        walk.declaration(counts.own(slots, decl), decl)?;
        counts = counts.behind(decl);
    }
    Ok(())
}

/// How many equations there are up to a whole type, which has this place.
fn end_of(wholes: &[Whole], count: usize) -> usize {
    match count.checked_sub(1) {
        Some(last) => match wholes.get(last) {
            Some(whole) => whole.end,
            None => 0,
        },
        None => 0,
    }
}

/// The equations of the whole types from the first number on, and before the second.
#[tactic(auto, using(crate::proofs::FineLaws::within_take, crate::proofs::FineLaws::within_drop))]
fn between<'a>(pairs: &'a [Pair], wholes: &[Whole], from: usize, to: usize) -> &'a [Pair]
    ensures { (size : ℕ) → AreWithin size pairs.now → AreWithin size result.now }
{
    let first = end_of(wholes, from);
    let last = end_of(wholes, to);
    match pairs.get(first..last) {
        Some(part) => part,
        None => &[],
    }
}

/// How often what is left is halved at most: a count has 64 bits.
const TURNS: u32 = 66;

/// How many of the whole types have kinds together, from the first on: halves of what is left are tried.
fn solvable(unknowns: &mut Unknowns, pairs: &[Pair], wholes: &[Whole]) -> Result<usize, Memory>
    requires within { AreWithin (type_count unknowns.old) pairs.now }
    ensures same { OnOk result (type_count unknowns.new ≡ type_count unknowns.old) }
{
    let count = wholes.len();
    let mut good: usize = 0;
    let mut bad = count.saturating_add(1);
    for turn in 0..TURNS {
        if bad.saturating_sub(good) <= 1 {
            return Ok(good);
        }
        let middle = if turn == 0 {
            count
        } else {
            good.saturating_add(bad.saturating_sub(good) / 2)
        };
        match unknowns.equate_all(between(pairs, wholes, good, middle)) {
            Ok(()) => good = middle,
            Err(EquateError::Clash) => bad = middle,
            Err(EquateError::Memory) => return Err(Memory),
        }
    }
    Ok(good)
}

/// The first whole type with a sum where none may stand, by its number.
fn first_sum(wholes: &[Whole]) -> Option<usize> {
    wholes.iter().position(|whole| whole.wrong_sum)
}

/// The first fault, where so many whole types have kinds together.
fn check(alloc: Global, wholes: &[Whole], good: usize) -> Result<(), Fault> {
    if let Some(sum) = first_sum(wholes) {
        if let Some(whole) = wholes.get(sum) {
            if sum <= good {
                return Err(refused(alloc, Code::E10, whole.place, b"sum"));
            }
        }
    }
    match wholes.get(good) {
        Some(whole) => Err(refused(alloc, Code::E10, whole.place, b"kind")),
        None => Ok(()),
    }
}

/// Each kind that nothing fixes is that of types.
fn default_to_star(unknowns: &mut Unknowns, star: usize) -> Result<(), Memory>
    requires star { star < type_count unknowns.old }
    ensures same { OnOk result (type_count unknowns.new ≡ type_count unknowns.old) }
{
    let count = unknowns.len();
    for place in 0..count {
        match unknowns.equate(place, star) {
            Ok(()) | Err(EquateError::Clash) => {}
            Err(EquateError::Memory) => return Err(Memory),
        }
    }
    Ok(())
}

impl KindEquations {
    /// Takes in the equations of the whole types as far as they have kinds together, and answers how many these are.
    fn solve(&mut self, wholes: &[Whole]) -> Result<usize, Memory>
        requires fine { AreFine self.old }
        ensures fine { OnOk result (AreFine self.new) }
    {
        solvable(&mut self.unknowns, &self.pairs, wholes)
    }

    /// Gives each kind that nothing fixes the kind of types.
    fn settle(&mut self) -> Result<(), Memory>
        requires fine { AreFine self.old }
        ensures fine { OnOk result (AreFine self.new) }
    {
        default_to_star(&mut self.unknowns, self.star)
    }
}

/// The places of the kinds in slots, in the table of all kinds.
fn places_of(
    alloc: Global,
    equations: &KindEquations,
    found: &[usize],
    slots: &[usize],
) -> Result<List<usize>, Memory>
    requires fine { AreFine equations.now }
{
    let mut places = Vec::new(alloc);
    for slot in slots {
        let place = equations.kept(*slot);
        places.push(match found.get(place) {
            Some(at) => *at,
            None => 0,
        })?;
    }
    Ok(List::of(places))
}

/// The slots of parameters, one by one.
fn slots_of(alloc: Global, parameters: Parameters) -> Result<Vec<usize>, Memory> {
    let mut slots = Vec::new(alloc);
    for place in 0..parameters.count {
        slots.push(parameters.first.saturating_add(place))?;
    }
    Ok(slots)
}

/// The kinds that were found.
fn table(alloc: Global, equations: &KindEquations, slots: &Slots) -> Result<KindTable, Memory>
    requires fine { AreFine equations.now }
{
    let found = equations.unknowns.full(alloc)?;
    let types = places_of(
        alloc,
        equations,
        found.places.as_slice(),
        slots.constructors.as_slice(),
    )?;
    let mut classes = List::of(Vec::new(alloc));
    for parameters in &slots.class_parameters {
        let own = slots_of(alloc, *parameters)?;
        classes.push(places_of(alloc, equations, found.places.as_slice(), own.as_slice())?)?;
    }
    Ok(KindTable::new(found.types, types, classes))
}

/// The kinds of what a program declares: the least that fit all its types, where the kind of types is below every other.
///
/// A fault is E10 at the first type, in text order, that has a sum outside of a signature, with the detail `sum`; or that fits
/// no kinds together with those before it, with the detail `kind`. A type is a whole one of a declaration, or one argument of a
/// predicate or of the head of an instance. A wrong number of arguments is a fault of the last.
pub fn kinds(alloc: Global, tree: &Resolved) -> Result<KindTable, Fault> {
    let count = tree.names.count();
    let decls = tree.program.decls.as_slice();
    let mut equations = KindEquations::new(alloc)?;
    let declared = declare(alloc, &mut equations, count, decls)?;
    let mut walk = Walk {
        equations,
        meanings: declared.meanings,
        variables: Variables::new(alloc, count)?,
        wholes: Vec::new(alloc),
    };
    walk_all(&mut walk, &declared.slots, decls)?;
    let Walk {
        mut equations,
        wholes,
        ..
    } = walk;
    let good = equations.solve(wholes.as_slice())?;
    check(alloc, wholes.as_slice(), good)?;
    equations.settle()?;
    Ok(table(alloc, &equations, &declared.slots)?)
}
