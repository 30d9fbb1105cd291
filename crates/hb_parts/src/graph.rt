use hb_base::Memory;
use std::alloc::Global;
use std::ops::Range;

/// A part of a list: where it begins, and how many items it has.
#[derive(Clone, Copy, Debug, PartialEq, Eq)]
pub struct Span {
    pub first: usize,
    pub count: usize,
}

impl Span {
    /// The items of a part of a list. None where they are not all there.
    pub(crate) fn part<T>(self, all: &[T]) -> &[T] {
        let end = self.first.saturating_add(self.count);
        all.get(self.first..end).unwrap_or(&[])
    }

    /// The places of a part of a list.
    pub(crate) fn places(self) -> Range<usize> {
        self.first..self.first.saturating_add(self.count)
    }
}

/// What is known of a node: a type of the table without parameters, into which nobody has looked so far, or a type constructor with
/// the nodes of its arguments.
#[derive(Clone, Copy, Debug, PartialEq, Eq)]
pub enum Parts {
    Whole(usize),
    Con(u32, Span),
}

/// A node: the node to which it was joined (itself where it is a root), how many nodes are joined in it, what is known of it, and the
/// last constructor whose arguments have nodes.
#[derive(Clone, Copy, Debug)]
pub struct Node {
    pub parent: usize,
    pub size: usize,
    pub parts: Parts,
    pub made: Option<usize>,
}

/// A constructor of a data type whose arguments have nodes, and the next one of the same node.
#[derive(Clone, Copy, Debug)]
pub(crate) struct Made {
    pub(crate) constructor: usize,
    pub(crate) arguments: Span,
    pub(crate) next: Option<usize>,
}

/// A graph of types. A node stands for a type at one place of a program with the functions and actions in it. Nodes that were joined
/// are one, and so are their parts one by one. Nodes of equal types alone are joined.
#[derive(Debug, Drop)]
pub struct Graph {
    pub(crate) alloc: Global,
    pub(crate) nodes: Vec<Node>,
    pub(crate) arguments: Vec<usize>,
    pub(crate) made: Vec<Made>,
    pub(crate) due: Vec<(usize, usize)>,
}

impl Graph {
    /// No nodes. Takes no memory.
    pub fn new(alloc: Global) -> Graph {
        Graph {
            alloc,
            nodes: Vec::new(alloc),
            arguments: Vec::new(alloc),
            made: Vec::new(alloc),
            due: Vec::new(alloc),
        }
    }

    /// A new node.
    pub(crate) fn fresh(&mut self, parts: Parts) -> Result<usize, Memory> {
        let node = self.nodes.len();
        self.nodes.push(Node {
            parent: node,
            size: 1,
            parts,
            made: None,
        })?;
        Ok(node)
    }

    /// A new node for a type of the table without parameters, with functions and actions of its own.
    pub fn whole(&mut self, place: usize) -> Result<usize, Memory> {
        self.fresh(Parts::Whole(place))
    }

    /// A new node for a type constructor with these arguments.
    pub(crate) fn applied(&mut self, con: u32, arguments: &[usize]) -> Result<usize, Memory> {
        let first = self.arguments.len();
        for argument in arguments {
            self.arguments.push(*argument)?;
        }
        self.fresh(Parts::Con(
            con,
            Span {
                first,
                count: arguments.len(),
            },
        ))
    }

    /// A new node for the functions from the first to the second.
    pub fn function(&mut self, from: usize, to: usize) -> Result<usize, Memory> {
        self.applied(crate::heads::ARROW, [from, to].as_slice())
    }

    /// A new node for the actions that give this.
    pub fn run(&mut self, gives: usize) -> Result<usize, Memory> {
        self.applied(crate::heads::ACTION, [gives].as_slice())
    }

    pub(crate) fn node(&self, node: usize) -> Node {
        match self.nodes.get(node) {
            Some(found) => *found,
            None => Node {
                parent: node,
                size: 1,
                parts: Parts::Whole(usize::MAX),
                made: None,
            },
        }
    }

    /// The root of a node: two nodes are one where these are. There are few nodes above any.
    pub fn root(&self, node: usize) -> usize {
        let mut at = node;
        for _ in 0..self.nodes.len() {
            let above = self.node(at).parent;
            if above == at {
                break;
            }
            at = above;
        }
        at
    }

    pub(crate) fn set_parts(&mut self, root: usize, parts: Parts) {
        if let Some(node) = self.nodes.get_mut(root) {
            node.parts = parts;
        }
    }

    pub(crate) fn set_made(&mut self, root: usize, made: Option<usize>) {
        if let Some(node) = self.nodes.get_mut(root) {
            node.made = made;
        }
    }

    /// The argument at a place of a part of the arguments.
    pub(crate) fn argument(&self, of: Span, place: usize) -> usize {
        let at = of.first.saturating_add(place);
        self.arguments.get(at).copied().unwrap_or(0)
    }

    /// The nodes in a part of the arguments.
    pub fn arguments(&self, of: Span) -> &[usize] {
        of.part(&self.arguments)
    }
}
