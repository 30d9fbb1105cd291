use crate::goals::{Goal, Goals, Rule};
use crate::index::InstanceIndex;
use crate::searching::Search;
use crate::table::{Class, ClassTable};
use hb_base::{List, Memory};
use hb_types::{Types, UseForm};
use std::alloc::Global;

/// How a predicate holds: the last of some uses, whose types stand in the table. A use is an instance, the types at which
/// it is taken, and the uses by which its context holds, which stand before it. A predicate that holds by itself is
/// the instance 2^32 - 1, without types and context.
#[derive(Drop)]
pub struct Choices {
    pub types: Types,
    pub uses: List<UseForm>,
}

/// A search that has looked at one predicate, with the types at these places of a table, and the goal of it.
fn searched<'a>(
    alloc: Global,
    table: &'a ClassTable,
    index: &'a InstanceIndex,
    of: &Types,
    class: Class,
    args: &[usize],
) -> Result<(Search<'a>, usize), Memory> {
    let mut search = Search::new(alloc, table, index);
    let places = search.types.take(of)?;
    let mut here = Vec::new(alloc);
    for arg in args {
        here.push(places.as_slice().get(*arg).copied().unwrap_or(0))?;
    }
    let goal = search.ask(class, &here)?;
    search.settle()?;
    Ok((search, goal))
}

/// Whether a predicate without variables holds, of types by their places in a table. Classes and instances keep their
/// rules.
pub fn holds(
    alloc: Global,
    table: &ClassTable,
    index: &InstanceIndex,
    of: &Types,
    class: Class,
    args: &[usize],
) -> Result<bool, Memory> {
    let (search, goal) = searched(alloc, table, index, of, class, args)?;
    Ok(search.follows(goal))
}

/// Marks the goals on which a goal rests, and it.
fn mark(alloc: Global, goals: &Goals, goal: usize) -> Result<Vec<bool>, Memory> {
    let mut marks = vec![in alloc; false; goals.len()]?;
    set(&mut marks, goal);
    for place in goals.held().iter().rev() {
        if is_set(&marks, *place) {
            if let Some(one) = goals.goal(*place) {
                set_all(&mut marks, goals.items(one.context));
            }
        }
    }
    Ok(marks)
}

fn set(marks: &mut Vec<bool>, place: usize) {
    if let Some(mark) = marks.get_mut(place) {
        *mark = true;
    }
}

fn set_all(marks: &mut Vec<bool>, places: &[usize]) {
    for place in places {
        set(marks, *place);
    }
}

fn is_set(marks: &[bool], place: usize) -> bool {
    match marks.get(place) {
        Some(mark) => *mark,
        None => false,
    }
}

/// The use of a goal, once those of its context have their numbers.
fn use_of(alloc: Global, goals: &Goals, goal: Goal, numbers: &[usize]) -> Result<UseForm, Memory> {
    let mut context = List::of(Vec::new(alloc));
    for place in goals.items(goal.context) {
        context.push(numbers.get(*place).copied().unwrap_or(0))?;
    }
    let instance = match goal.rule {
        Rule::Instance(number) => number,
        Rule::Nothing | Rule::Itself => u32::MAX,
    };
    Ok(UseForm {
        instance,
        types: List::of(Vec::from_slice(alloc, goals.items(goal.taken))?),
        context,
    })
}

/// The uses on which a goal rests, and it at last.
fn uses_of(alloc: Global, goals: &Goals, goal: usize) -> Result<List<UseForm>, Memory> {
    let marks = mark(alloc, goals, goal)?;
    let mut numbers = vec![in alloc; 0; goals.len()]?;
    let mut uses = List::of(Vec::new(alloc));
    for place in goals.held() {
        if let Some(one) = goals.goal(*place) {
            if is_set(&marks, *place) {
                if let Some(number) = numbers.get_mut(*place) {
                    *number = uses.len();
                }
                uses.push(use_of(alloc, goals, one, &numbers)?)?;
            }
            if *place == goal {
                return Ok(uses);
            }
        }
    }
    Ok(uses)
}

/// By which instances a predicate without variables holds, of types by their places in a table; nothing where it does
/// not. Classes and instances keep their rules.
pub fn ground(
    alloc: Global,
    table: &ClassTable,
    index: &InstanceIndex,
    of: &Types,
    class: Class,
    args: &[usize],
) -> Result<Option<Choices>, Memory> {
    let (search, goal) = searched(alloc, table, index, of, class, args)?;
    if !search.follows(goal) {
        return Ok(None);
    }
    let (types, goals) = search.into_parts();
    let uses = uses_of(alloc, &goals, goal)?;
    Ok(Some(Choices {
        types: types.into_types(),
        uses,
    }))
}
