use hb_base::Memory;
use std::alloc::Global;

/// A graph: the targets of each node, one node behind the other.
#[derive(Debug, Drop)]
pub struct Graph {
    ends: Vec<usize>,
    targets: Vec<usize>,
}

impl Graph {
    /// No nodes. Takes no memory.
    pub fn new(alloc: Global) -> Graph {
        Graph {
            ends: Vec::new(alloc),
            targets: Vec::new(alloc),
        }
    }

    /// Puts a target of the node that is next.
    pub fn edge(&mut self, target: usize) -> Result<(), Memory> {
        self.targets.push(target)?;
        Ok(())
    }

    /// The node that is next has no further target.
    pub fn node(&mut self) -> Result<(), Memory> {
        self.ends.push(self.targets.len())?;
        Ok(())
    }

    /// How many nodes there are.
    pub fn len(&self) -> usize {
        self.ends.len()
    }

    /// How many edges there are.
    pub(crate) fn edges(&self) -> usize {
        self.targets.len()
    }

    /// Where the targets of a node begin.
    pub(crate) fn first(&self, node: usize) -> usize {
        match node.checked_sub(1) {
            Some(before) => self.end(before),
            None => 0,
        }
    }

    fn end(&self, node: usize) -> usize {
        self.ends.get(node).copied().unwrap_or(0)
    }

    /// The target at a place of all, if the place is one of this node.
    pub(crate) fn target(&self, node: usize, place: usize) -> Option<usize> {
        if place < self.end(node) {
            self.targets.get(place).copied()
        } else {
            None
        }
    }
}
