use crate::renewed::Renewed;
use crate::round::{Asked, Round};
use hb_base::{List, Memory};
use hb_classes::{Class, ClassTable, InstanceIndex, Search, is_fact};
use hb_types::{Atom, Types};
use hb_unique::{Paired, UniqueTypes, take_equations, unknowns_of};
use hb_unknowns::{FullTypes, Pair, Unknowns};
use std::alloc::Global;

/// Where a predicate belongs to: it is given, or a node wants it, either to follow or to be a fact by itself.
#[derive(Clone, Copy, PartialEq, Eq)]
enum Source {
    Given,
    Follows(u32),
    IsFact(u32),
}

/// A predicate that was handed in, with types by their places.
#[derive(Drop)]
struct Handed {
    source: Source,
    class: Class,
    args: List<usize>,
}

/// An equation that a node states between two types by their places.
#[derive(Clone, Copy)]
struct Stated {
    node: u32,
    pair: Pair,
}

/// What came of a definition.
#[derive(Drop)]
pub enum Settled {
    /// All that was wanted follows. The types of all places, with each unknown that is forced to be a type without unknowns
    /// replaced by that type.
    Solved(FullTypes),
    /// The equations and predicates of the nodes up to this one clash, and of no earlier node that was handed in; 0 where
    /// none was.
    Clash(u32),
    /// The least node with a predicate that does not follow, and of its predicates the first such one, by its number among
    /// all that were wanted. The types are those of `Solved`.
    Unsolved {
        node: u32,
        want: usize,
        types: FullTypes,
    },
}

/// The equations and predicates of one definition, at its nodes. Types are named by their places; variables among them
/// are constants.
#[derive(Drop)]
pub struct Solver<'a> {
    alloc: Global,
    table: &'a ClassTable,
    index: &'a InstanceIndex,
    types: UniqueTypes,
    unknowns: u64,
    handed: Vec<Handed>,
    stated: Vec<Stated>,
}

/// What came of a round: nothing new, more that is known, or a clash.
#[derive(Clone, Copy)]
enum Improved {
    Nothing,
    More,
    Clash,
}

/// Takes in the equations that a round found.
fn take(
    alloc: Global,
    unknowns: &mut Unknowns,
    renewed: Renewed,
    equations: &[Pair],
) -> Result<Improved, Memory> {
    if equations.len() == 0 {
        return Ok(Improved::Nothing);
    }
    let mut renewed = renewed;
    let pairs = renewed.pairs_back(alloc, unknowns, equations)?;
    match take_equations(alloc, unknowns, &pairs)? {
        Paired::Agreed => Ok(Improved::More),
        Paired::Clashed => Ok(Improved::Clash),
    }
}

/// The node of a predicate, if it is not given.
fn node_of(source: Source) -> Option<u32> {
    match source {
        Source::Given => None,
        Source::Follows(node) | Source::IsFact(node) => Some(node),
    }
}

/// Whether a predicate belongs to the nodes up to one, or is given.
fn is_up_to(source: Source, node: u32) -> bool {
    match node_of(source) {
        Some(one) => one <= node,
        None => true,
    }
}

impl<'a> Solver<'a> {
    /// A definition without equations and predicates. The classes and instances of the table keep their rules.
    pub fn new(alloc: Global, table: &'a ClassTable, index: &'a InstanceIndex) -> Solver<'a> {
        Solver {
            alloc,
            table,
            index,
            types: UniqueTypes::new(alloc),
            unknowns: 0,
            handed: Vec::new(alloc),
            stated: Vec::new(alloc),
        }
    }

    /// How many types there are: they are named by their places, from 0.
    pub fn len(&self) -> usize {
        self.types.len()
    }

    /// One more unknown, by its place.
    pub fn fresh(&mut self) -> Result<usize, Memory> {
        let place = self.types.open(self.unknowns)?;
        self.unknowns = self.unknowns.saturating_add(1);
        Ok(place)
    }

    /// A type without parts, by its place.
    pub fn leaf(&mut self, atom: Atom) -> Result<usize, Memory> {
        self.types.leaf(atom)
    }

    /// A type applied to one more type, by its place.
    pub fn apply(&mut self, function: usize, argument: usize) -> Result<usize, Memory> {
        self.types.apply(function, argument)
    }

    /// The type at a place of another table, which has no unknowns, with the types at `args[v]` in the place of the
    /// variable v; by its place. A variable without an argument stays.
    pub fn copy(&mut self, of: &Types, place: usize, args: &[usize]) -> Result<usize, Memory> {
        self.types.copy(of, place, args)
    }

    fn hand(&mut self, source: Source, class: Class, args: &[usize]) -> Result<(), Memory> {
        self.handed.push(Handed {
            source,
            class,
            args: List::of(Vec::from_slice(self.alloc, args)?),
        })?;
        Ok(())
    }

    /// A predicate is given.
    pub fn given(&mut self, class: Class, args: &[usize]) -> Result<(), Memory> {
        self.hand(Source::Given, class, args)
    }

    /// A node wants a predicate to follow.
    pub fn want(&mut self, node: u32, class: Class, args: &[usize]) -> Result<(), Memory> {
        self.hand(Source::Follows(node), class, args)
    }

    /// A node wants a predicate to hold as a fact by itself, whatever is given.
    pub fn want_fact(&mut self, node: u32, class: Class, args: &[usize]) -> Result<(), Memory> {
        self.hand(Source::IsFact(node), class, args)
    }

    /// A node states that two types are the same.
    pub fn same(&mut self, node: u32, a: usize, b: usize) -> Result<(), Memory> {
        self.stated.push(Stated {
            node,
            pair: Pair { left: a, right: b },
        })?;
        Ok(())
    }

    /// A node has no types at all: it clashes.
    pub fn never(&mut self, node: u32) -> Result<(), Memory> {
        let a = self.leaf(Atom::Con(0))?;
        let b = self.leaf(Atom::Con(1))?;
        self.same(node, a, b)
    }

    /// The equations that the nodes up to one state.
    fn pairs(&self, upto: u32) -> Result<Vec<Pair>, Memory> {
        let mut pairs = Vec::new(self.alloc);
        for stated in &self.stated {
            if stated.node <= upto {
                pairs.push(stated.pair)?;
            }
        }
        Ok(pairs)
    }

    /// The predicates that are given and those of the nodes up to one, over renewed types.
    fn asked(&self, upto: u32, renewed: &Renewed) -> Result<Vec<Asked>, Memory> {
        let mut asked = Vec::new(self.alloc);
        for handed in &self.handed {
            if is_up_to(handed.source, upto) {
                let args = renewed.at_each(self.alloc, handed.args.as_slice())?;
                asked.push(Asked {
                    class: handed.class,
                    args: List::of(args),
                })?;
            }
        }
        Ok(asked)
    }

    /// What the predicates up to a node force, once.
    fn improve(&self, unknowns: &mut Unknowns, upto: u32) -> Result<Improved, Memory> {
        let renewed = Renewed::of(self.alloc, unknowns)?;
        let asked = self.asked(upto, &renewed)?;
        let mut round = Round::new(self.alloc, self.table, self.index, renewed, asked)?;
        round.run()?;
        let (renewed, equations) = round.into_parts();
        take(self.alloc, unknowns, renewed, &equations)
    }

    /// All that the nodes up to one force, or nothing where it clashes.
    fn closure(&self, upto: u32) -> Result<Option<Unknowns>, Memory> {
        let mut unknowns = unknowns_of(self.alloc, self.types.types())?;
        let pairs = self.pairs(upto)?;
        if take_equations(self.alloc, &mut unknowns, &pairs)? == Paired::Clashed {
            return Ok(None);
        }
        for _ in 0..u64::MAX {
            match self.improve(&mut unknowns, upto)? {
                Improved::Nothing => return Ok(Some(unknowns)),
                Improved::More => {}
                Improved::Clash => return Ok(None),
            }
        }
        Ok(Some(unknowns))
    }

    /// The nodes that were handed in, in their order.
    fn nodes(&self) -> Result<Vec<u32>, Memory> {
        let mut nodes = Vec::new(self.alloc);
        for stated in &self.stated {
            nodes.push(stated.node)?;
        }
        for handed in &self.handed {
            if let Some(node) = node_of(handed.source) {
                nodes.push(node)?;
            }
        }
        nodes.sort_unstable();
        Ok(nodes)
    }

    /// The least node that was handed in for which the nodes up to it clash, where they all do; 0 where none was handed in.
    fn least_clash(&self) -> Result<u32, Memory> {
        let nodes = self.nodes()?;
        let mut low: usize = 0;
        let mut high = nodes.len().saturating_sub(1);
        for _ in 0..usize::BITS {
            if high <= low {
                break;
            }
            let middle = low.saturating_add(high.saturating_sub(low) / 2);
            match self.closure(nodes.get(middle).copied().unwrap_or(u32::MAX))? {
                Some(_) => low = middle.saturating_add(1),
                None => high = middle,
            }
        }
        Ok(nodes.get(low).copied().unwrap_or(0))
    }

    /// Takes what is given, over renewed types.
    fn give_all(&self, search: &mut Search, renewed: &List<usize>) -> Result<(), Memory> {
        for handed in &self.handed {
            if handed.source == Source::Given {
                let args = at_each(self.alloc, renewed, handed.args.as_slice())?;
                search.give(handed.class, &args)?;
            }
        }
        Ok(())
    }

    /// The goal of each predicate that is wanted to follow, or nothing of one that is not; of one that is wanted to be a fact, whether it is none.
    fn ask_all(&self, search: &mut Search, renewed: &List<usize>) -> Result<Vec<Wanted>, Memory> {
        let mut all = Vec::new(self.alloc);
        for handed in &self.handed {
            let args = at_each(self.alloc, renewed, handed.args.as_slice())?;
            match handed.source {
                Source::Given => {}
                Source::Follows(node) => {
                    let goal = search.ask(handed.class, &args)?;
                    all.push(Wanted {
                        node,
                        goal: Some(goal),
                        is_fact: false,
                    })?;
                }
                Source::IsFact(node) => {
                    let is_fact = is_fact(self.table, &search.types, handed.class, &args);
                    all.push(Wanted {
                        node,
                        goal: None,
                        is_fact,
                    })?;
                }
            }
        }
        Ok(all)
    }

    /// The least node with a predicate that does not follow, and the first such one.
    fn first_unsolved(&self, unknowns: &Unknowns) -> Result<Option<(u32, usize)>, Memory> {
        let renewed = Renewed::of(self.alloc, unknowns)?;
        let mut search = Search::over(self.alloc, self.table, self.index, renewed.types);
        self.give_all(&mut search, &renewed.here)?;
        let wanted = self.ask_all(&mut search, &renewed.here)?;
        search.settle()?;
        let mut first: Option<(u32, usize)> = None;
        for (number, one) in wanted.iter().enumerate() {
            if !one.is_met(&search) && is_lower(one.node, first) {
                first = Some((one.node, number));
            }
        }
        Ok(first)
    }

    /// What the equations and predicates that were handed in force, and whether those that are wanted follow, in time that
    /// is near linear where nothing clashes.
    ///
    /// Forced are the equations that nodes state, and with them: equality; the parts of types that are the same; the right of
    /// a dependency for two predicates of a class that agree at its left, and for a predicate that agrees with an instance
    /// there; the number that a predicate on numbers gives from those that are known; the width of a bitdata type; the type of
    /// what a cell holds; and the type of a field. They clash where unlike types, or a type and a part of it, are the same.
    pub fn settle(&self) -> Result<Settled, Memory> {
        let Some(unknowns) = self.closure(u32::MAX)? else {
            return Ok(Settled::Clash(self.least_clash()?));
        };
        let types = unknowns.full(self.alloc)?;
        match self.first_unsolved(&unknowns)? {
            Some((node, want)) => Ok(Settled::Unsolved { node, want, types }),
            None => Ok(Settled::Solved(types)),
        }
    }
}

/// A predicate that a node wants: its goal, or whether it is a fact.
#[derive(Clone, Copy)]
struct Wanted {
    node: u32,
    goal: Option<usize>,
    is_fact: bool,
}

impl Wanted {
    fn is_met(&self, search: &Search) -> bool {
        match self.goal {
            Some(goal) => search.follows(goal),
            None => self.is_fact,
        }
    }
}

/// Whether a node comes before the first one that was found, if any was.
fn is_lower(node: u32, first: Option<(u32, usize)>) -> bool {
    match first {
        Some((one, _)) => node < one,
        None => true,
    }
}

/// The places of the types at some places.
fn at_each(alloc: Global, here: &List<usize>, places: &[usize]) -> Result<Vec<usize>, Memory> {
    let mut all = Vec::new(alloc);
    for place in places {
        all.push(here.as_slice().get(*place).copied().unwrap_or(0))?;
    }
    Ok(all)
}
