ghost use Rattle.std.specs.Prelude.{◌≡◌, ℕ, ◌<◌, ◌⊎◌, length, IfOk, MatchBool, reverse, [], ◌∷◌};
ghost use Rattle.hb_types.specs.Finite.{Finite};
ghost use Rattle.hb_unknowns.specs.Joined.{entry_at};
ghost use Rattle.hb_unknowns.specs.Graph.{Obeys, IsGraph};
ghost use Rattle.hb_unknowns.specs.Full.{IsOrder};
ghost use Rattle.hb_unknowns.specs.Order.{marked, first_undone, Walked, Touched, AllBelow, AreClear, AreCleared, IsMet, IsReached, Member};

use crate::node::{Entry, Node, node_at};
use hb_base::Memory;
use std::alloc::Global;

/// How far a node is: not met, begun, or done with all its parts.
#[derive(Clone, Copy, Debug)]
pub enum Mark {
    New,
    Open,
    Done,
}

fn mark_at(marks: &[Mark], place: usize) -> Mark
    ensures { result ≡ marked marks.now place }
{
    match marks.get(place) {
        Some(mark) => *mark,
        None => Mark::New,
    }
}

/// The first part of a node that is not done.
fn next_part(marks: &[Mark], node: Node) -> Option<usize>
    ensures { result ≡ first_undone marks.now node }
{
    match node {
        Node::Free | Node::Leaf(_) => None,
        Node::Link(part) => match mark_at(marks, part) {
            Mark::Done => None,
            _ => Some(part),
        },
        Node::Apply(f, x) => match mark_at(marks, f) {
            Mark::Done => match mark_at(marks, x) {
                Mark::Done => None,
                _ => Some(x),
            },
            _ => Some(f),
        },
    }
}

/// Goes down from the nodes on the stack, and puts each node to the finished ones once its parts are there. Answers
/// `false` where a node is below itself.
fn walk(
    entries: &[Entry],
    marks: &mut Vec<Mark>,
    stack: &mut Vec<usize>,
    finished: &mut Vec<usize>,
) -> Result<bool, Memory>
    requires graph { IsGraph entries.now }
    requires walked { Walked entries.now marks.old.items (reverse stack.old.items) (reverse finished.old.items) }
    ensures walked { Walked entries.now marks.new.items (reverse stack.new.items) (reverse finished.new.items) }
    ensures touched { Touched marks.old.items marks.new.items }
    ensures end { IfOk result (λ ok. MatchBool ok (stack.new.items ≡ []) ((v : ℕ → Finite) → Obeys v entries.now → ⊥)) }
{
    while let Some(top) = stack.last() {
        let node = *top;
        match next_part(marks, node_at(entries, node)) {
            None => {
                finished.push(node)?;
                marks[node] = Mark::Done;
                stack.truncate(stack.len() - 1);
            }
            Some(part) => match mark_at(marks, part) {
                Mark::New => {
                    stack.push(part)?;
                    marks[part] = Mark::Open;
                }
                _ => return Ok(false),
            },
        }
    }
    Ok(true)
}

/// Goes down from one start.
fn walk_from(
    entries: &[Entry],
    marks: &mut Vec<Mark>,
    stack: &mut Vec<usize>,
    finished: &mut Vec<usize>,
    start: usize,
) -> Result<bool, Memory>
    requires graph { IsGraph entries.now }
    requires start { start < length entries.now }
    requires stack { stack.old.items ≡ [] }
    requires walked { Walked entries.now marks.old.items [] (reverse finished.old.items) }
    ensures walked { Walked entries.now marks.new.items (reverse stack.new.items) (reverse finished.new.items) }
    ensures touched { Touched marks.old.items marks.new.items }
    ensures end { IfOk result (λ ok. MatchBool ok ((stack.new.items ≡ []) × (marked marks.new.items start ≡ Mark.New → ⊥)) ((v : ℕ → Finite) → Obeys v entries.now → ⊥)) }
{
    match mark_at(marks, start) {
        Mark::New => {}
        _ => return Ok(true),
    }
    stack.push(start)?;
    marks[start] = Mark::Open;
    let ok = walk(entries, marks, stack, finished)?;
    Ok(ok)
}

/// Goes down from each start. Answers `false` where a node is below itself.
fn walk_all(
    entries: &[Entry],
    marks: &mut Vec<Mark>,
    stack: &mut Vec<usize>,
    finished: &mut Vec<usize>,
    starts: &[usize],
) -> Result<bool, Memory>
    requires graph { IsGraph entries.now }
    requires starts { AllBelow (length entries.now) starts.now }
    requires stack { stack.old.items ≡ [] }
    requires walked { Walked entries.now marks.old.items [] (reverse finished.old.items) }
    ensures walked { Walked entries.now marks.new.items (reverse stack.new.items) (reverse finished.new.items) }
    ensures end { IfOk result (λ ok. MatchBool ok (IsMet entries.now marks.new.items finished.new.items starts.now) ((v : ℕ → Finite) → Obeys v entries.now → ⊥)) }
{
    for start in starts {
        if !walk_from(entries, marks, stack, finished, *start)? {
            return Ok(false);
        }
    }
    Ok(true)
}

/// Takes back the marks of some nodes.
fn clear(marks: &mut Vec<Mark>, places: &[usize])
    requires { AllBelow (length marks.old.items) places.now }
    ensures { AreCleared marks.old.items places.now marks.new.items }
{
    for place in places {
        marks[*place] = Mark::New;
    }
}

/// Whether each start has a finite type that obeys the graph below it.
pub fn is_solvable(
    alloc: Global,
    entries: &[Entry],
    marks: &mut Vec<Mark>,
    starts: &[usize],
) -> Result<bool, Memory>
    requires graph { IsGraph entries.now }
    requires starts { AllBelow (length entries.now) starts.now }
    requires clear { AreClear entries.now marks.old.items }
    ensures clear { AreClear entries.now marks.new.items }
    ensures end { IfOk result (λ ok. MatchBool ok (IsReached entries.now starts.now) ((v : ℕ → Finite) → Obeys v entries.now → ⊥)) }
{
    let mut stack = Vec::new(alloc);
    let mut finished = Vec::new(alloc);
    let answer = walk_all(entries, marks, &mut stack, &mut finished, starts);
    clear(marks, &stack);
    clear(marks, &finished);
    answer
}

/// All nodes, each after its parts.
pub fn sorted(alloc: Global, entries: &[Entry]) -> Result<Vec<usize>, Memory>
    requires graph { IsGraph entries.now }
    requires solution { (v : ℕ → Finite) × Obeys v entries.now }
    ensures { IfOk result (λ order. IsOrder entries.now (reverse order.items)) }
{
    let mut marks = vec![in alloc; Mark::New; entries.len()]?;
    let starts = all_below(alloc, entries.len())?;
    let mut stack = Vec::new(alloc);
    let mut finished = Vec::new(alloc);
    let _whole = walk_all(entries, &mut marks, &mut stack, &mut finished, &starts)?;
    Ok(finished)
}

/// The numbers below one.
fn all_below(alloc: Global, count: usize) -> Result<Vec<usize>, Memory>
    ensures inside { IfOk result (λ all. AllBelow count all.items) }
    ensures whole { IfOk result (λ all. (k : ℕ) → k < count → Member k all.items) }
{
    let mut all = Vec::new(alloc);
    for number in 0..count {
        all.push(number)?;
    }
    Ok(all)
}
