use hb_base::Memory;
use hb_classes::{Class, ClassDecl, ClassTable, Goals};
use std::alloc::Global;

/// The declared classes in the context of a class, by their places.
fn context_classes(alloc: Global, class: &ClassDecl) -> Result<Vec<usize>, Memory> {
    let mut classes = Vec::new(alloc);
    for predicate in class.context.as_slice() {
        if let Class::Declared(place) = predicate.class {
            classes.push(place as usize)?;
        }
    }
    Ok(classes)
}

/// Which classes have an end below them: all those of their contexts have one. The others stand on a circle of contexts,
/// or lead to one.
fn ended(alloc: Global, classes: &[ClassDecl]) -> Result<Goals, Memory> {
    let mut goals = Goals::new(alloc);
    for place in 0..classes.len() {
        goals.push(place, Class::Sum, &[])?;
    }
    for (place, class) in classes.iter().enumerate() {
        let context = context_classes(alloc, class)?;
        goals.by_instance(place, 0, &[], &context)?;
    }
    Ok(goals)
}

/// Puts the classes of a context that were not seen at the end of those that are left.
fn see(seen: &mut Vec<bool>, left: &mut Vec<usize>, context: &[usize]) -> Result<(), Memory> {
    for place in context {
        if let Some(mark) = seen.get_mut(*place) {
            if !*mark {
                *mark = true;
                left.push(*place)?;
            }
        }
    }
    Ok(())
}

/// Whether a class stands in its own context, directly or through those of further classes.
fn contains_itself(alloc: Global, classes: &[ClassDecl], start: usize) -> Result<bool, Memory> {
    let mut seen = vec![in alloc; false; classes.len()]?;
    let mut left = Vec::new(alloc);
    left.push(start)?;
    for _ in 0..=classes.len() {
        let Some(place) = left.pop() else {
            break;
        };
        if let Some(class) = classes.get(place) {
            let context = context_classes(alloc, class)?;
            see(&mut seen, &mut left, &context)?;
        }
    }
    Ok(seen.get(start).copied() == Some(true))
}

/// The first class that stands in its own context, directly or through those of further classes, by its place.
pub fn first_on_cycle(alloc: Global, table: &ClassTable) -> Result<Option<usize>, Memory> {
    let classes = table.classes.as_slice();
    let ended = ended(alloc, classes)?;
    for place in 0..classes.len() {
        if !ended.holds(place) && contains_itself(alloc, classes, place)? {
            return Ok(Some(place));
        }
    }
    Ok(None)
}
