use crate::containing::{Container, Containers, containers_of};
use crate::graph::{Graph, first_on_cycle};
use hb_base::{Code, Fault, Memory, Name, refused};
use hb_resolved::Resolved;
use std::alloc::Global;

/// The number that each name has among the declared types, by the name's number.
fn numbers(alloc: Global, count: u32, types: &[Container]) -> Result<Vec<Option<usize>>, Memory> {
    let mut numbers = Vec::new(alloc);
    for _ in 0..count {
        numbers.push(None)?;
    }
    for (number, one) in types.iter().enumerate() {
        if let Some(entry) = numbers.get_mut(one.name.0 as usize) {
            *entry = Some(number);
        }
    }
    Ok(numbers)
}

/// The declared types that each declared type mentions, but no struct below a `Ref`.
fn graph(alloc: Global, count: u32, all: &Containers) -> Result<Graph, Memory> {
    let numbers = numbers(alloc, count, all.types.as_slice())?;
    let mut graph = Graph::new(alloc);
    let mut from = 0;
    for one in &all.types {
        for mention in all.mentions.get(from..one.end).unwrap_or(&[]) {
            let target = numbers.get(mention.name.0 as usize).copied().flatten();
            if let Some(target) = target {
                let is_struct = all.types.get(target).is_some_and(|t| t.is_struct);
                if !(mention.under_ref && is_struct) {
                    graph.edge(target)?;
                }
            }
        }
        graph.node()?;
        from = one.end;
    }
    Ok(graph)
}

/// No declared type contains itself.
///
/// A data, bitdata or struct type contains each declared type that its declaration names, under arrows, in actions and as an
/// argument too, and what these contain; but no struct that is named somewhere below a `Ref`. A fault is E15 at the first
/// declaration of a type that contains itself, with its name as the detail.
pub fn finite_data(alloc: Global, tree: &Resolved) -> Result<(), Fault> {
    let all = containers_of(alloc, tree.program.decls.as_slice())?;
    let graph = graph(alloc, tree.names.count(), &all)?;
    let Some(number) = first_on_cycle(alloc, &graph)? else {
        return Ok(());
    };
    match all.types.get(number) {
        Some(one) => Err(refused(
            alloc,
            Code::E15,
            one.place,
            tree.names.text(one.name).unwrap_or(b""),
        )),
        None => Ok(()),
    }
}
