use crate::classes::{argument_words, captured_words, closure_words};
use hb_base::{List, Memory};
use hb_frames::{Block, Home, Operand, Tail};
use hb_mil::Mil;
use hb_values::Class;
use std::alloc::Global;

/// A block of a dispatch without steps.
fn shared(alloc: Global, entry: Option<List<Option<u32>>>, tail: Tail) -> Block {
    Block {
        home: Home::Shared,
        entry,
        steps: List::of(Vec::new(alloc)),
        tail,
    }
}

/// Puts the blocks of a class at the end: one that is called with the words of a function or an action and those of the argument, and
/// goes on by the label, and for each label, from this block number on, one that goes on where the label begins, with what it
/// captures and the argument.
pub(crate) fn push_dispatch(
    alloc: Global,
    blocks: &mut Vec<Block>,
    mil: &Mil,
    class: &Class,
    number: usize,
    first: u32,
) -> Result<(), Memory> {
    let closure = closure_words(mil, class);
    let argument = argument_words(mil, class);
    let entry = entry_of(alloc, closure.saturating_add(argument))?;
    let tail = choice(alloc, class, first)?;
    blocks.push(shared(alloc, Some(entry), tail))?;
    let mut place = 0usize;
    for label in class.labels.as_slice() {
        let begin = label_block(mil, number, place);
        let captured = captured_words(mil, label);
        let words = passed_words(alloc, captured, closure, argument)?;
        blocks.push(shared(alloc, None, Tail::Jump(begin, words)))?;
        place = place.saturating_add(1);
    }
    Ok(())
}

/// The entry at which so many words stay where they are passed.
fn entry_of(alloc: Global, words: u32) -> Result<List<Option<u32>>, Memory> {
    let mut entry = Vec::new(alloc);
    for word in 0..words {
        entry.push(Some(word))?;
    }
    Ok(List::of(entry))
}

/// The tail that goes on by the label. A class without labels has no values, so its dispatch is never called.
fn choice(alloc: Global, class: &Class, first: u32) -> Result<Tail, Memory> {
    if class.labels.len() == 0 {
        return Ok(Tail::Done);
    }
    let mut targets = Vec::new(alloc);
    let mut next = first;
    for _label in class.labels.as_slice() {
        targets.push(next)?;
        next = next.saturating_add(1);
    }
    Ok(Tail::Switch(Operand::Word(0), List::of(targets)))
}

/// The block at which a label of a class begins.
fn label_block(mil: &Mil, class: usize, label: usize) -> u32 {
    match mil.labels.as_slice().get(class) {
        Some(labels) => match labels.as_slice().get(label) {
            Some(block) => *block,
            None => 0,
        },
        None => 0,
    }
}

/// The words that a label is called with: what it captures, which stands behind the label's number, and the argument, which stands
/// behind all words of the function.
fn passed_words(
    alloc: Global,
    captured: u32,
    closure: u32,
    argument: u32,
) -> Result<List<Operand>, Memory> {
    let mut words = Vec::new(alloc);
    for place in 0..captured {
        words.push(Operand::Word(place.saturating_add(1)))?;
    }
    for place in 0..argument {
        words.push(Operand::Word(closure.saturating_add(place)))?;
    }
    Ok(List::of(words))
}
