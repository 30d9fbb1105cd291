use hb_base::Memory;
use hb_local_places::words_of;
use hb_mil::Mil;
use hb_values::{Class, Label};
use std::alloc::Global;

/// The greatest number of words that the sums count to.
const MANY: u32 = 65;

/// How many words a label captures.
pub(crate) fn captured_words(mil: &Mil, label: &Label) -> u32 {
    let mut words = 0u32;
    for of in label.captures.as_slice() {
        words = words.saturating_add(words_of(&mil.types, *of));
    }
    words
}

/// How many words a function or an action of a class has: 1, and the most that one label captures.
pub(crate) fn closure_words(mil: &Mil, class: &Class) -> u32 {
    let mut most = 0;
    for label in class.labels.as_slice() {
        most = captured_words(mil, label).max(most);
    }
    most.saturating_add(1).min(MANY)
}

/// How many words the argument of a class has: none where it is one of actions.
pub(crate) fn argument_words(mil: &Mil, class: &Class) -> u32 {
    match class.takes {
        Some(of) => words_of(&mil.types, of).min(MANY),
        None => 0,
    }
}

/// For each class the number of the block that goes on by the label: after the blocks of the program those of the classes follow, of
/// each this one and then one for each label.
pub(crate) fn dispatches_of(alloc: Global, mil: &Mil) -> Result<Vec<u32>, Memory> {
    let mut next = number_of(mil.blocks.len());
    let mut dispatches = Vec::new(alloc);
    for class in mil.classes.as_slice() {
        dispatches.push(next)?;
        next = next
            .saturating_add(1)
            .saturating_add(number_of(class.labels.len()));
    }
    Ok(dispatches)
}

/// A count as the number of a block.
fn number_of(count: usize) -> u32 {
    match u32::try_from(count) {
        Ok(number) => number,
        Err(_) => u32::MAX,
    }
}
