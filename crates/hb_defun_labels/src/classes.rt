use hb_base::{List, Memory};
use hb_values::{Class, Label};
use std::alloc::Global;

fn copied_words(alloc: Global, of: &List<u32>) -> Result<List<u32>, Memory> {
    let mut copy = List::of(Vec::new(alloc));
    for word in of.as_slice() {
        copy.push(*word)?;
    }
    Ok(copy)
}

/// The same numbers.
pub fn copied_numbers(alloc: Global, of: &List<u64>) -> Result<List<u64>, Memory> {
    let mut copy = List::of(Vec::new(alloc));
    for number in of.as_slice() {
        copy.push(*number)?;
    }
    Ok(copy)
}

fn copied_label(alloc: Global, of: &Label) -> Result<Label, Memory> {
    let numbers = copied_numbers(alloc, &of.numbers)?;
    let captures = copied_words(alloc, &of.captures)?;
    Ok(Label {
        member: of.member,
        numbers,
        taken: of.taken,
        captures,
    })
}

fn copied_class(alloc: Global, of: &Class) -> Result<Class, Memory> {
    let mut labels = List::of(Vec::new(alloc));
    for label in of.labels.as_slice() {
        let label = copied_label(alloc, label)?;
        labels.push(label)?;
    }
    Ok(Class {
        takes: of.takes,
        gives: of.gives,
        labels,
    })
}

/// The same classes.
pub fn copied_classes(alloc: Global, of: &List<Class>) -> Result<List<Class>, Memory> {
    let mut copy = List::of(Vec::new(alloc));
    for class in of.as_slice() {
        let class = copied_class(alloc, class)?;
        copy.push(class)?;
    }
    Ok(copy)
}
