use crate::forcing::{forced_number, forced_second, hiding};
use crate::renewed::Renewed;
use hb_base::{List, Memory};
use hb_classes::{Class, ClassTable, Dependency, InstanceDecl, InstanceIndex, form_at_top};
use hb_types::{Atom, Form};
use hb_unique::{Matched, match_types};
use hb_unknowns::Pair;
use indexmap::IndexMap;
use std::alloc::Global;

/// How many steps a round takes at most, for each of its types and predicates, to let unknowns stand for types.
const STEPS: usize = 16;

/// A predicate that waits for an unknown, and the next that does.
#[derive(Clone, Copy)]
struct Wait {
    predicate: usize,
    next: Option<usize>,
}

/// A predicate of a round.
#[derive(Drop)]
pub struct Asked {
    pub class: Class,
    pub args: List<usize>,
}

/// What the predicates of a definition force once the types of a moment are known. An unknown that is found to be a type
/// stands for it from then on, and the predicates that wait for it are looked at again.
#[derive(Drop)]
pub struct Round<'a> {
    alloc: Global,
    table: &'a ClassTable,
    index: &'a InstanceIndex,
    renewed: Renewed,
    asked: Vec<Asked>,
    queue: Vec<usize>,
    waits: Vec<Wait>,
    waiting: IndexMap<u64, usize>,
    /// A predicate for each class, dependency and types at its left.
    alike: IndexMap<usize, usize>,
    /// The equations that were found.
    equations: Vec<Pair>,
    /// How many steps are left for what they make known in this round.
    fuel: usize,
}

/// The items at some positions.
fn at_positions(alloc: Global, items: &[usize], positions: &[usize]) -> Result<Vec<usize>, Memory> {
    let mut all = Vec::new(alloc);
    for position in positions {
        if let Some(item) = items.get(*position) {
            all.push(*item)?;
        }
    }
    Ok(all)
}

/// The dependencies of a declared class.
fn dependencies_of(table: &ClassTable, class: u32) -> &[Dependency] {
    match table.classes.as_slice().get(class as usize) {
        Some(class) => class.dependencies.as_slice(),
        None => &[],
    }
}

impl<'a> Round<'a> {
    /// A round over types, in which each of the predicates is to be looked at.
    pub fn new(
        alloc: Global,
        table: &'a ClassTable,
        index: &'a InstanceIndex,
        renewed: Renewed,
        asked: Vec<Asked>,
    ) -> Result<Round<'a>, Memory> {
        let mut queue = Vec::new(alloc);
        for place in 0..asked.len() {
            queue.push(place)?;
        }
        let fuel = renewed
            .types
            .len()
            .saturating_add(queue.len())
            .saturating_mul(STEPS);
        Ok(Round {
            alloc,
            table,
            index,
            renewed,
            asked,
            queue,
            waits: Vec::new(alloc),
            waiting: IndexMap::new(alloc),
            alike: IndexMap::new(alloc),
            equations: Vec::new(alloc),
            fuel,
        })
    }

    /// Looks at all predicates, and again at those for which something has become known.
    pub fn run(&mut self) -> Result<(), Memory> {
        for turn in 0..usize::MAX {
            let Some(place) = self.queue.get(turn).copied() else {
                return Ok(());
            };
            self.look_at(place)?;
        }
        Ok(())
    }

    /// The types, and the equations that were found between them.
    pub fn into_parts(self) -> (Renewed, Vec<Pair>) {
        (self.renewed, self.equations)
    }

    /// The class and the types of a predicate.
    fn parts(&self, place: usize) -> Result<Option<(Class, Vec<usize>)>, Memory> {
        match self.asked.get(place) {
            Some(asked) => {
                let args = Vec::from_slice(self.alloc, asked.args.as_slice())?;
                Ok(Some((asked.class, args)))
            }
            None => Ok(None),
        }
    }

    fn look_at(&mut self, place: usize) -> Result<(), Memory> {
        let Some((class, args)) = self.parts(place)? else {
            return Ok(());
        };
        match class {
            Class::Sum | Class::Product | Class::Power => self.numbers(place, class, &args),
            Class::BitRep | Class::Cell | Class::Selection(_) | Class::Update(_) => self.second(
                place, class, &args,
            ),
            Class::Declared(number) => self.declared(place, number, &args),
            Class::AtMost | Class::Width | Class::Index | Class::NumLit => Ok(()),
        }
    }

    /// Lets a predicate wait for an unknown.
    fn wait(&mut self, predicate: usize, unknown: Option<u64>) -> Result<(), Memory> {
        let Some(number) = unknown else {
            return Ok(());
        };
        let next = self.waiting.get(&number).copied();
        let place = self.waits.len();
        self.waits.push(Wait { predicate, next })?;
        self.waiting.insert(number, place)?;
        Ok(())
    }

    /// Puts the predicates that wait for an unknown into the queue.
    fn wake(&mut self, unknown: u64) -> Result<(), Memory> {
        let mut at = self.waiting.get(&unknown).copied();
        for _ in 0..self.waits.len() {
            let Some(wait) = at.and_then(|place| self.waits.get(place)).copied() else {
                return Ok(());
            };
            self.queue.push(wait.predicate)?;
            at = wait.next;
        }
        Ok(())
    }

    /// Lets an unknown stand for a type, and wakes what waits for it.
    fn mean(&mut self, unknown: u64, place: usize, other: usize) -> Result<(), Memory> {
        self.renewed.types.mean(place, other)?;
        self.wake(unknown)
    }

    /// Two types are forced to be one.
    fn equate(&mut self, a: usize, b: usize) -> Result<(), Memory> {
        let left = self.renewed.types.resolved(a);
        let right = self.renewed.types.resolved(b);
        if left == right {
            return Ok(());
        }
        self.equations.push(Pair { left, right })?;
        self.spread(Pair { left, right })
    }

    /// Lets unknowns stand for the types that an equation forces them to be. Where this takes too long, the next round goes
    /// on: the equation is noted.
    fn spread(&mut self, equation: Pair) -> Result<(), Memory> {
        let mut left = Vec::new(self.alloc);
        left.push(equation)?;
        for _ in 0..self.fuel {
            let Some(pair) = left.pop() else {
                return Ok(());
            };
            self.fuel = self.fuel.saturating_sub(1);
            self.meet(pair, &mut left)?;
        }
        Ok(())
    }

    /// Lets an unknown on one side of an equation stand for the other side, or puts those of the parts among what is left.
    fn meet(&mut self, pair: Pair, rest: &mut Vec<Pair>) -> Result<(), Memory> {
        let left = self.renewed.types.resolved(pair.left);
        let right = self.renewed.types.resolved(pair.right);
        if left == right {
            return Ok(());
        }
        match (
            self.renewed.types.form(left),
            self.renewed.types.form(right),
        ) {
            (Some(Form::Unknown(unknown)), _) => self.mean(unknown, left, right),
            (_, Some(Form::Unknown(unknown))) => self.mean(unknown, right, left),
            (Some(Form::Apply(f, x)), Some(Form::Apply(g, y))) => {
                rest.push(Pair { left: x, right: y })?;
                rest.push(Pair { left: f, right: g })?;
                Ok(())
            }
            _ => Ok(()),
        }
    }

    /// Types are forced to be the same one by one.
    fn equate_all(&mut self, lefts: &[usize], rights: &[usize]) -> Result<(), Memory> {
        for (left, right) in lefts.iter().zip(rights.iter()) {
            self.equate(*left, *right)?;
        }
        Ok(())
    }

    /// What a predicate on numbers forces.
    fn numbers(&mut self, place: usize, class: Class, args: &[usize]) -> Result<(), Memory> {
        for (position, arg) in args.iter().enumerate() {
            let unknown = self.renewed.types.unknown(*arg);
            self.wait(place, unknown)?;
            if let Some(number) = forced_number(&self.renewed.types, class, args, position) {
                let forced = self.renewed.types.leaf(Atom::Nat(number))?;
                self.equate(*arg, forced)?;
            }
        }
        Ok(())
    }

    /// What a predicate forces its second argument to be.
    fn second(&mut self, place: usize, class: Class, args: &[usize]) -> Result<(), Memory> {
        if let [first, second] = args {
            match forced_second(self.table, &mut self.renewed.types, class, *first)? {
                Some(forced) => self.equate(*second, forced)?,
                None => {
                    let unknown = hiding(&self.renewed.types, *first);
                    self.wait(place, unknown)?;
                }
            }
        }
        Ok(())
    }

    /// What the dependencies of a declared class force.
    fn declared(&mut self, place: usize, class: u32, args: &[usize]) -> Result<(), Memory> {
        let table = self.table;
        for (number, dependency) in dependencies_of(table, class).iter().enumerate() {
            self.depend(place, class, number, dependency, args)?;
        }
        Ok(())
    }

    fn depend(
        &mut self,
        place: usize,
        class: u32,
        number: usize,
        dependency: &Dependency,
        args: &[usize],
    ) -> Result<(), Memory> {
        let lefts = at_positions(self.alloc, args, dependency.from.as_slice())?;
        let rights = at_positions(self.alloc, args, dependency.to.as_slice())?;
        let key = self.key(class, number, &lefts)?;
        self.alike(place, key, dependency, &rights)?;
        self.instances(place, class, dependency, &lefts, &rights)
    }

    /// A class, one of its dependencies, and the types at its left, as if they were a type.
    fn key(&mut self, class: u32, number: usize, lefts: &[usize]) -> Result<usize, Memory> {
        let types = &mut self.renewed.types;
        let class = types.leaf(Atom::Con(class))?;
        let dependency = types.leaf(Atom::Nat(number as u64))?;
        let whole = types.apply(class, dependency)?;
        types.apply_all(whole, lefts)
    }

    /// A predicate agrees with another one of its class at the left of a dependency.
    fn alike(
        &mut self,
        place: usize,
        key: usize,
        dependency: &Dependency,
        rights: &[usize],
    ) -> Result<(), Memory> {
        let Some(other) = self.alike.get(&key).copied() else {
            self.alike.insert(key, place)?;
            return Ok(());
        };
        let Some((_, args)) = self.parts(other)? else {
            return Ok(());
        };
        let others = at_positions(self.alloc, &args, dependency.to.as_slice())?;
        self.equate_all(rights, &others)
    }

    /// A predicate agrees with an instance of its class at the left of a dependency.
    fn instances(
        &mut self,
        place: usize,
        class: u32,
        dependency: &Dependency,
        lefts: &[usize],
        rights: &[usize],
    ) -> Result<(), Memory> {
        let table = self.table;
        for number in &self.candidates(place, class, dependency, lefts)? {
            if let Some(instance) = table.instances.as_slice().get(*number) {
                self.instance(place, instance, dependency, lefts, rights)?;
            }
        }
        Ok(())
    }

    /// The instances of a class with which a predicate may agree at the left of a dependency. It waits for an unknown that
    /// stands at the head of the first type there.
    fn candidates(
        &mut self,
        place: usize,
        class: u32,
        dependency: &Dependency,
        lefts: &[usize],
    ) -> Result<Vec<usize>, Memory> {
        let parameter = dependency.from.as_slice().first().copied().unwrap_or(0);
        let form = match lefts.first() {
            Some(left) => form_at_top(&self.renewed.types, *left),
            None => None,
        };
        if let Some(Form::Unknown(number)) = form {
            self.wait(place, Some(number))?;
        }
        self.index.candidates(self.alloc, class, parameter, form)
    }

    fn instance(
        &mut self,
        place: usize,
        instance: &InstanceDecl,
        dependency: &Dependency,
        lefts: &[usize],
        rights: &[usize],
    ) -> Result<(), Memory> {
        let head = instance.head.as_slice();
        let heads = at_positions(self.alloc, head, dependency.from.as_slice())?;
        match match_types(
            self.alloc,
            &self.table.types,
            instance.variables,
            &heads,
            &self.renewed.types,
            lefts,
        )? {
            Matched::Taken(taken) => self.take_instance(instance, dependency, &taken, rights),
            Matched::Unlike => Ok(()),
            Matched::Open(unknown) => self.wait(place, Some(unknown)),
        }
    }

    /// A predicate takes the right of a dependency from an instance at types.
    fn take_instance(
        &mut self,
        instance: &InstanceDecl,
        dependency: &Dependency,
        taken: &[usize],
        rights: &[usize],
    ) -> Result<(), Memory> {
        let head = instance.head.as_slice();
        let heads = at_positions(self.alloc, head, dependency.to.as_slice())?;
        let forced = self
            .renewed
            .types
            .copy_each(&self.table.types, &heads, taken)?;
        self.equate_all(rights, &forced)
    }
}
