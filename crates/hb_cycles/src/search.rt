use crate::graph::Graph;
use hb_base::Memory;
use std::alloc::Global;

/// What a search of a graph tells: for each node whether it leads back to itself by one edge or more, and all nodes in an order in
/// which each stands behind those that it leads to, except where they lead back to it.
#[derive(Debug, Drop)]
pub struct Order {
    pub on_cycle: Vec<bool>,
    pub order: Vec<usize>,
}

/// What is known of a node: when it was reached, counted from 1, and the earliest node that is known to be reached from it
/// among those that are open.
#[derive(Clone, Copy)]
struct Mark {
    reached: usize,
    earliest: usize,
    open: bool,
}

/// A node whose targets are being looked at, and the place of the next one.
#[derive(Clone, Copy)]
struct Visit {
    node: usize,
    next: usize,
}

/// A depth-first walk that finds the strongly connected parts of a graph (Tarjan, "Depth-first search and linear graph
/// algorithms", 1972).
#[derive(Drop)]
struct Search {
    marks: Vec<Mark>,
    open: Vec<usize>,
    visits: Vec<Visit>,
    count: usize,
    done: Order,
}

impl Search {
    fn new(alloc: Global, nodes: usize) -> Result<Search, Memory> {
        let unknown = Mark {
            reached: 0,
            earliest: 0,
            open: false,
        };
        Ok(Search {
            marks: vec![in alloc; unknown; nodes]?,
            open: Vec::new(alloc),
            visits: Vec::new(alloc),
            count: 0,
            done: Order {
                on_cycle: vec![in alloc; false; nodes]?,
                order: Vec::new(alloc),
            },
        })
    }

    fn mark(&self, node: usize) -> Mark {
        match self.marks.get(node) {
            Some(mark) => *mark,
            None => Mark {
                reached: 1,
                earliest: 1,
                open: false,
            },
        }
    }

    /// A node is reached for the first time.
    fn enter(&mut self, graph: &Graph, node: usize) -> Result<(), Memory> {
        self.count = self.count.saturating_add(1);
        if let Some(mark) = self.marks.get_mut(node) {
            *mark = Mark {
                reached: self.count,
                earliest: self.count,
                open: true,
            };
        }
        self.open.push(node)?;
        self.visits.push(Visit {
            node,
            next: graph.first(node),
        })?;
        Ok(())
    }

    /// A node reaches what was reached at this count.
    fn reaches(&mut self, node: usize, count: usize) {
        if let Some(mark) = self.marks.get_mut(node) {
            if count < mark.earliest {
                mark.earliest = count;
            }
        }
    }

    /// A node leads back to itself.
    fn found(&mut self, node: usize) {
        if let Some(on_cycle) = self.done.on_cycle.get_mut(node) {
            *on_cycle = true;
        }
    }

    /// The open nodes from this one on are one part; they all lead back to themselves where there are several.
    fn close(&mut self, node: usize) -> Result<(), Memory> {
        let count = self.open.len();
        for place in (0..count).rev() {
            let Some(last) = self.open.pop() else {
                return Ok(());
            };
            if let Some(mark) = self.marks.get_mut(last) {
                mark.open = false;
            }
            if last != node || place + 1 < count {
                self.found(last);
            }
            self.done.order.push(last)?;
            if last == node {
                return Ok(());
            }
        }
        Ok(())
    }

    /// One target of the node that is being looked at.
    fn look(&mut self, graph: &Graph, visit: Visit, target: usize) -> Result<(), Memory> {
        self.visits.push(Visit {
            node: visit.node,
            next: visit.next.saturating_add(1),
        })?;
        if target == visit.node {
            self.found(target);
        }
        let mark = self.mark(target);
        if mark.reached == 0 {
            return self.enter(graph, target);
        }
        if mark.open {
            self.reaches(visit.node, mark.reached);
        }
        Ok(())
    }

    /// A node has no further target.
    fn leave(&mut self, node: usize) -> Result<(), Memory> {
        let mark = self.mark(node);
        if mark.reached == mark.earliest {
            self.close(node)?;
        }
        if let Some(below) = self.visits.last().copied() {
            self.reaches(below.node, mark.earliest);
        }
        Ok(())
    }

    /// All that is open is looked at. Each step is the end of a node or one target.
    fn run(&mut self, graph: &Graph) -> Result<(), Memory> {
        let steps = graph.len().saturating_add(graph.edges());
        for _ in 0..steps {
            let Some(visit) = self.visits.pop() else {
                return Ok(());
            };
            match graph.target(visit.node, visit.next) {
                Some(target) => self.look(graph, visit, target)?,
                None => self.leave(visit.node)?,
            }
        }
        Ok(())
    }
}

/// The nodes of a graph that lead back to themselves, and the order of all, in time that is linear in the graph.
pub fn ordered(alloc: Global, graph: &Graph) -> Result<Order, Memory> {
    let mut search = Search::new(alloc, graph.len())?;
    for node in 0..graph.len() {
        if search.mark(node).reached == 0 {
            search.enter(graph, node)?;
            search.run(graph)?;
        }
    }
    Ok(search.done)
}
