use hb_base::Memory;
use hb_classes::{Class, ClassTable, InstanceDecl, InstanceIndex, Predicate, Search};
use hb_types::Atom;
use std::alloc::Global;

/// The variables from 0 and below a count, as types of a search.
fn variables(alloc: Global, search: &mut Search, count: usize) -> Result<Vec<usize>, Memory> {
    let mut all = Vec::new(alloc);
    for number in 0..count {
        let variable = u32::try_from(number).unwrap_or(u32::MAX);
        let place = search.types.leaf(Atom::Var(variable))?;
        all.push(place)?;
    }
    Ok(all)
}

/// A search in which the context of an instance is given.
fn given<'a>(
    alloc: Global,
    table: &'a ClassTable,
    index: &'a InstanceIndex,
    instance: &InstanceDecl,
) -> Result<Search<'a>, Memory> {
    let mut search = Search::new(alloc, table, index);
    let variables = variables(alloc, &mut search, instance.variables)?;
    for predicate in instance.context.as_slice() {
        let args = search
            .types
            .copy_each(&table.types, predicate.args.as_slice(), &variables)?;
        search.give(predicate.class, &args)?;
    }
    Ok(search)
}

/// The goals of the context of a class at the head of an instance.
fn ask_all(
    alloc: Global,
    table: &ClassTable,
    search: &mut Search,
    context: &[Predicate],
    instance: &InstanceDecl,
) -> Result<Vec<usize>, Memory> {
    let variables = variables(alloc, search, instance.variables)?;
    let head = search
        .types
        .copy_each(&table.types, instance.head.as_slice(), &variables)?;
    let mut goals = Vec::new(alloc);
    for predicate in context {
        let args = search
            .types
            .copy_each(&table.types, predicate.args.as_slice(), &head)?;
        let goal = search.ask(predicate.class, &args)?;
        goals.push(goal)?;
    }
    Ok(goals)
}

/// Whether each predicate of the context of its class follows from the context of an instance.
pub fn has_superclasses(
    alloc: Global,
    table: &ClassTable,
    index: &InstanceIndex,
    instance: &InstanceDecl,
) -> Result<bool, Memory> {
    let Some(class) = table.classes.as_slice().get(instance.class as usize) else {
        return Ok(true);
    };
    if class.context.len() == 0 {
        return Ok(true);
    }
    let mut search = given(alloc, table, index, instance)?;
    let goals = ask_all(
        alloc,
        table,
        &mut search,
        class.context.as_slice(),
        instance,
    )?;
    search.settle()?;
    Ok(goals.iter().all(|goal| search.follows(*goal)))
}

/// Whether a predicate is one of a declared class.
pub fn is_of_declared(predicate: &Predicate) -> bool {
    matches!(predicate.class, Class::Declared(_))
}
