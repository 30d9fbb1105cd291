use crate::facts::is_fact;
use crate::goals::{Goal, Goals};
use crate::index::{InstanceIndex, form_at_top};
use crate::selection::is_selected;
use crate::table::{Class, ClassTable, InstanceDecl, Predicate};
use hb_base::{List, Memory};
use hb_types::Atom;
use hb_unique::{Matched, UniqueTypes, match_types};
use indexmap::IndexMap;
use std::alloc::Global;

/// How many goals a search looks at, and how many givens it takes, at most. Where classes and instances keep their rules,
/// a search ends by itself.
const MOST: u32 = u32::MAX;

/// A search for predicates that follow from givens: a given, a predicate of the context of a class that is given, a fact,
/// or an instance whose context follows. Without givens these are the predicates that hold. Each predicate is looked at
/// once. Variables among the types are constants.
#[derive(Drop)]
pub struct Search<'a> {
    alloc: Global,
    table: &'a ClassTable,
    index: &'a InstanceIndex,
    /// The types of the predicates.
    pub types: UniqueTypes,
    goals: Goals,
    known: IndexMap<usize, usize>,
    givens: IndexMap<usize, Class>,
    next: usize,
}

/// The place of a class alone, as if it were a type.
fn put_class(types: &mut UniqueTypes, class: Class) -> Result<usize, Memory> {
    if let Some(number) = class.number() {
        return types.leaf(Atom::Con(number));
    }
    let (kind, name) = match class {
        Class::Selection(name) => (0, name),
        Class::Update(name) => (1, name),
        _ => (2, 0),
    };
    let function = types.leaf(Atom::Nat(kind))?;
    let argument = types.leaf(Atom::Var(name))?;
    types.apply(function, argument)
}

/// The place of a predicate, as if it were a type.
fn put_predicate(types: &mut UniqueTypes, class: Class, args: &[usize]) -> Result<usize, Memory> {
    let class = put_class(types, class)?;
    types.apply_all(class, args)
}

/// The place among the declared ones of a class that is declared.
fn declared(class: Class) -> Option<u32> {
    match class {
        Class::Declared(place) => Some(place),
        _ => None,
    }
}

/// The context of a class.
fn context_of(table: &ClassTable, class: Class) -> &[Predicate] {
    let Some(place) = declared(class) else {
        return &[];
    };
    match table.classes.as_slice().get(place as usize) {
        Some(class) => class.context.as_slice(),
        None => &[],
    }
}

impl<'a> Search<'a> {
    /// A search without givens.
    pub fn new(alloc: Global, table: &'a ClassTable, index: &'a InstanceIndex) -> Search<'a> {
        Search::over(alloc, table, index, UniqueTypes::new(alloc))
    }

    /// A search without givens over types that are there.
    pub fn over(
        alloc: Global,
        table: &'a ClassTable,
        index: &'a InstanceIndex,
        types: UniqueTypes,
    ) -> Search<'a> {
        Search {
            alloc,
            table,
            index,
            types,
            goals: Goals::new(alloc),
            known: IndexMap::new(alloc),
            givens: IndexMap::new(alloc),
            next: 0,
        }
    }

    /// Notes a given, and answers whether it is a new one.
    fn note(&mut self, class: Class, args: &[usize]) -> Result<bool, Memory> {
        let predicate = put_predicate(&mut self.types, class, args)?;
        if self.givens.contains_key(&predicate) {
            return Ok(false);
        }
        self.givens.insert(predicate, class)?;
        Ok(true)
    }

    /// Takes a predicate as given, with those of the context of its class, and of theirs.
    pub fn give(&mut self, class: Class, args: &[usize]) -> Result<(), Memory> {
        let mut left = Vec::new(self.alloc);
        left.push(Given {
            class,
            args: List::of(Vec::from_slice(self.alloc, args)?),
        })?;
        for _ in 0..MOST {
            let Some(one) = left.pop() else {
                return Ok(());
            };
            self.give_one(one, &mut left)?;
        }
        Ok(())
    }

    /// Takes one predicate as given, and puts those of the context of its class among what is left.
    fn give_one(&mut self, given: Given, left: &mut Vec<Given>) -> Result<(), Memory> {
        if !self.note(given.class, given.args.as_slice())? {
            return Ok(());
        }
        for predicate in context_of(self.table, given.class) {
            let args = self.types.copy_each(
                &self.table.types,
                predicate.args.as_slice(),
                given.args.as_slice(),
            )?;
            left.push(Given {
                class: predicate.class,
                args: List::of(args),
            })?;
        }
        Ok(())
    }

    /// The goal of a predicate, whose types are named by their places among those of the search.
    pub fn ask(&mut self, class: Class, args: &[usize]) -> Result<usize, Memory> {
        let predicate = put_predicate(&mut self.types, class, args)?;
        if let Some(place) = self.known.get(&predicate) {
            return Ok(*place);
        }
        let place = self.goals.push(predicate, class, args)?;
        self.known.insert(predicate, place)?;
        Ok(place)
    }

    /// Looks at all goals that were not looked at.
    pub fn settle(&mut self) -> Result<(), Memory> {
        for _ in 0..MOST {
            let Some(goal) = self.goals.goal(self.next) else {
                return Ok(());
            };
            self.decide(self.next, goal)?;
            self.next = self.next.saturating_add(1);
        }
        Ok(())
    }

    /// Whether a goal follows, once all goals were looked at.
    pub fn follows(&self, goal: usize) -> bool {
        self.goals.holds(goal)
    }

    /// What is known of the goals.
    pub fn goals(&self) -> &Goals {
        &self.goals
    }

    /// The types of the predicates, handed over with what is known of the goals.
    pub fn into_parts(self) -> (UniqueTypes, Goals) {
        (self.types, self.goals)
    }

    /// The types of a goal.
    fn args(&self, goal: Goal) -> Result<Vec<usize>, Memory> {
        Ok(Vec::from_slice(self.alloc, self.goals.items(goal.args))?)
    }

    /// Whether a goal follows without an instance.
    fn is_plain(&mut self, goal: Goal, args: &[usize]) -> Result<bool, Memory> {
        if self.givens.contains_key(&goal.predicate) {
            return Ok(true);
        }
        if is_fact(self.table, &self.types, goal.class, args) {
            return Ok(true);
        }
        is_selected(self.table, &mut self.types, goal.class, args)
    }

    fn decide(&mut self, place: usize, goal: Goal) -> Result<(), Memory> {
        let args = self.args(goal)?;
        if self.is_plain(goal, &args)? {
            return self.goals.by_itself(place);
        }
        match declared(goal.class) {
            Some(class) => self.try_instances(place, class, &args),
            None => Ok(()),
        }
    }

    /// Takes the first instance of the class whose head has these types.
    fn try_instances(&mut self, place: usize, class: u32, args: &[usize]) -> Result<(), Memory> {
        let form = match args.first() {
            Some(arg) => form_at_top(&self.types, *arg),
            None => None,
        };
        for number in &self.index.candidates(self.alloc, class, 0, form)? {
            if self.try_instance(place, *number, args)? {
                return Ok(());
            }
        }
        Ok(())
    }

    /// Takes an instance, if its head has these types.
    fn try_instance(
        &mut self,
        place: usize,
        number: usize,
        args: &[usize],
    ) -> Result<bool, Memory> {
        let table = self.table;
        let Some(instance) = table.instances.as_slice().get(number) else {
            return Ok(false);
        };
        match match_types(
            self.alloc,
            &table.types,
            instance.variables,
            instance.head.as_slice(),
            &self.types,
            args,
        )? {
            Matched::Taken(taken) => {
                self.take_instance(place, number, instance, &taken)?;
                Ok(true)
            }
            _ => Ok(false),
        }
    }

    /// Takes an instance at types: a goal follows where its context does.
    fn take_instance(
        &mut self,
        place: usize,
        number: usize,
        instance: &InstanceDecl,
        taken: &[usize],
    ) -> Result<(), Memory> {
        let mut context = Vec::new(self.alloc);
        for predicate in instance.context.as_slice() {
            let args = self
                .types
                .copy_each(&self.table.types, predicate.args.as_slice(), taken)?;
            let goal = self.ask(predicate.class, &args)?;
            context.push(goal)?;
        }
        let number = u32::try_from(number).unwrap_or(u32::MAX);
        self.goals.by_instance(place, number, taken, &context)
    }
}

/// A predicate that is to be given.
#[derive(Drop)]
struct Given {
    class: Class,
    args: List<usize>,
}
