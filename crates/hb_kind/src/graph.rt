use hb_base::Memory;
use std::alloc::Global;

/// A graph: the targets of each node, one node behind the other.
#[derive(Drop)]
pub struct Graph {
    ends: Vec<usize>,
    targets: Vec<usize>,
}

impl Graph {
    /// No nodes.
    pub fn new(alloc: Global) -> Graph {
        Graph {
            ends: Vec::new(alloc),
            targets: Vec::new(alloc),
        }
    }

    /// A target of the next node.
    pub fn edge(&mut self, target: usize) -> Result<(), Memory> {
        self.targets.push(target)?;
        Ok(())
    }

    /// The next node has no further target.
    pub fn node(&mut self) -> Result<(), Memory> {
        self.ends.push(self.targets.len())?;
        Ok(())
    }

    fn len(&self) -> usize {
        self.ends.len()
    }

    /// Where the targets of a node begin.
    fn first(&self, node: usize) -> usize {
        match node.checked_sub(1) {
            Some(before) => self.end(before),
            None => 0,
        }
    }

    fn end(&self, node: usize) -> usize {
        match self.ends.get(node) {
            Some(end) => *end,
            None => 0,
        }
    }

    /// The target at a place of all, if the place is one of this node.
    fn target(&self, node: usize, place: usize) -> Option<usize> {
        if place < self.end(node) {
            self.targets.get(place).copied()
        } else {
            None
        }
    }
}

/// What is known of a node: when it was reached, counted from 1, and the earliest node that is known to be reached from it
/// among those that are open.
#[derive(Clone, Copy)]
struct Mark {
    reached: usize,
    earliest: usize,
    open: bool,
}

/// A node whose targets are being looked at, and the place of the next one.
#[derive(Clone, Copy)]
struct Visit {
    node: usize,
    next: usize,
}

/// A depth-first walk that finds the strongly connected parts of a graph (Tarjan, "Depth-first search and linear graph
/// algorithms", 1972).
#[derive(Drop)]
struct Search {
    marks: Vec<Mark>,
    open: Vec<usize>,
    visits: Vec<Visit>,
    count: usize,
    first: Option<usize>,
}

impl Search {
    fn new(alloc: Global, nodes: usize) -> Result<Search, Memory> {
        let mut marks = Vec::new(alloc);
        for _ in 0..nodes {
            marks.push(Mark {
                reached: 0,
                earliest: 0,
                open: false,
            })?;
        }
        Ok(Search {
            marks,
            open: Vec::new(alloc),
            visits: Vec::new(alloc),
            count: 0,
            first: None,
        })
    }

    fn mark(&self, node: usize) -> Mark {
        match self.marks.get(node) {
            Some(mark) => *mark,
            None => Mark {
                reached: 1,
                earliest: 1,
                open: false,
            },
        }
    }

    /// A node is reached for the first time.
    fn enter(&mut self, graph: &Graph, node: usize) -> Result<(), Memory> {
        self.count = self.count.saturating_add(1);
        if let Some(mark) = self.marks.get_mut(node) {
            *mark = Mark {
                reached: self.count,
                earliest: self.count,
                open: true,
            };
        }
        self.open.push(node)?;
        self.visits.push(Visit {
            node,
            next: graph.first(node),
        })?;
        Ok(())
    }

    /// A node reaches what was reached at this count.
    fn reaches(&mut self, node: usize, count: usize) {
        if let Some(mark) = self.marks.get_mut(node) {
            if count < mark.earliest {
                mark.earliest = count;
            }
        }
    }

    /// A node lies on a cycle.
    fn found(&mut self, node: usize) {
        match self.first {
            Some(first) if first <= node => {}
            _ => self.first = Some(node),
        }
    }

    /// The open nodes from this one on are one part; they are all on a cycle where there are several.
    fn close(&mut self, node: usize) {
        let count = self.open.len();
        for place in (0..count).rev() {
            let Some(last) = self.open.pop() else {
                return;
            };
            if let Some(mark) = self.marks.get_mut(last) {
                mark.open = false;
            }
            if last != node || place + 1 < count {
                self.found(last);
            }
            if last == node {
                return;
            }
        }
    }

    /// One step: the next target of the node that is being looked at, or the end of it.
    fn step(&mut self, graph: &Graph, visit: Visit) -> Result<(), Memory> {
        match graph.target(visit.node, visit.next) {
            Some(target) => {
                self.visits.push(Visit {
                    node: visit.node,
                    next: visit.next.saturating_add(1),
                })?;
                if target == visit.node {
                    self.found(target);
                }
                let mark = self.mark(target);
                if mark.reached == 0 {
                    return self.enter(graph, target);
                }
                if mark.open {
                    self.reaches(visit.node, mark.reached);
                }
                Ok(())
            }
            None => {
                let mark = self.mark(visit.node);
                if mark.reached == mark.earliest {
                    self.close(visit.node);
                }
                if let Some(below) = self.visits.last().copied() {
                    self.reaches(below.node, mark.earliest);
                }
                Ok(())
            }
        }
    }
}

impl Search {
    /// All that is open is looked at. Each step is the end of a node or one target.
    fn run(&mut self, graph: &Graph) -> Result<(), Memory> {
        let steps = graph.len().saturating_add(graph.targets.len());
        for _ in 0..steps {
            match self.visits.pop() {
                Some(visit) => self.step(graph, visit)?,
                None => return Ok(()),
            }
        }
        Ok(())
    }
}

/// The first node, by its number, that lies on a cycle.
pub fn first_on_cycle(alloc: Global, graph: &Graph) -> Result<Option<usize>, Memory> {
    let mut search = Search::new(alloc, graph.len())?;
    for node in 0..graph.len() {
        if search.mark(node).reached == 0 {
            search.enter(graph, node)?;
            search.run(graph)?;
        }
    }
    Ok(search.first)
}
