use crate::{Graph, Order, ordered};
use hb_base::Memory;
use std::alloc::Global;
use std::test::Fail;

/// The graph of so many nodes with these edges, which stand in the order of the nodes that they begin at.
fn graph(alloc: Global, nodes: usize, edges: &[(usize, usize)]) -> Result<Graph, Memory> {
    let mut graph = Graph::new(alloc);
    for node in 0..nodes {
        for edge in edges {
            if edge.0 == node {
                graph.edge(edge.1)?;
            }
        }
        graph.node()?;
    }
    Ok(graph)
}

fn search(alloc: Global, nodes: usize, edges: &[(usize, usize)]) -> Result<Order, Memory> {
    ordered(alloc, &graph(alloc, nodes, edges)?)
}

#[test]
fn without_edges_nothing_leads_back(rt: HostRuntime) -> Result<(), Fail> {
    let found = search(rt.alloc(), 3, &[])?;
    assert!(rt; found.on_cycle.as_slice() == [false, false, false].as_slice());
    assert!(rt; found.order.as_slice() == [0, 1, 2].as_slice());
    Ok(())
}

#[test]
fn what_lies_between_two_cycles_is_on_none(rt: HostRuntime) -> Result<(), Fail> {
    let edges = [(0, 1), (1, 0), (1, 2), (2, 3), (3, 4), (4, 3)];
    let found = search(rt.alloc(), 5, edges.as_slice())?;
    assert!(rt; found.on_cycle.as_slice() == [true, true, false, true, true].as_slice());
    Ok(())
}

#[test]
fn a_node_that_leads_to_itself_is_on_a_cycle(rt: HostRuntime) -> Result<(), Fail> {
    let found = search(rt.alloc(), 3, [(0, 1), (1, 1), (1, 2)].as_slice())?;
    assert!(rt; found.on_cycle.as_slice() == [false, true, false].as_slice());
    Ok(())
}

#[test]
fn each_node_stands_behind_those_that_it_leads_to(rt: HostRuntime) -> Result<(), Fail> {
    let found = search(rt.alloc(), 4, [(0, 2), (0, 1), (1, 3), (2, 1)].as_slice())?;
    assert!(rt; found.on_cycle.as_slice() == [false, false, false, false].as_slice());
    assert!(rt; found.order.as_slice() == [3, 1, 2, 0].as_slice());
    Ok(())
}

#[test]
fn two_ways_to_one_node_are_no_cycle(rt: HostRuntime) -> Result<(), Fail> {
    let edges = [(0, 1), (0, 2), (1, 3), (2, 3), (3, 4)];
    let found = search(rt.alloc(), 5, edges.as_slice())?;
    assert!(rt; found.on_cycle.as_slice() == [false, false, false, false, false].as_slice());
    assert!(rt; found.order.as_slice() == [4, 3, 1, 2, 0].as_slice());
    Ok(())
}
