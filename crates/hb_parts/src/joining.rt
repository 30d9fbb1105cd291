use crate::graph::{Graph, Made, Node, Parts, Span};
use crate::tables::Tables;
use hb_base::Memory;

impl Graph {
    /// What both have of the arguments that stand in values is to be joined.
    fn join_arguments(
        &mut self,
        tables: &Tables,
        con: u32,
        one: Span,
        other: Span,
    ) -> Result<(), Memory> {
        for place in 0..one.count.min(other.count) {
            if tables.shown.has(con, place) {
                let pair = (self.argument(one, place), self.argument(other, place));
                self.due.push(pair)?;
            }
        }
        Ok(())
    }

    /// What is known of a root, once what is known of another node was joined to it.
    fn join_parts(
        &mut self,
        tables: &Tables,
        root: usize,
        one: Parts,
        other: Parts,
    ) -> Result<(), Memory> {
        match (one, other) {
            (Parts::Whole(_), _) => {
                self.set_parts(root, other);
                Ok(())
            }
            (Parts::Con(_, _), Parts::Whole(_)) => Ok(()),
            (Parts::Con(con, one), Parts::Con(_, other)) => self.join_arguments(
                tables, con, one, other,
            ),
        }
    }

    /// The constructor with nodes of its arguments at a place.
    pub(crate) fn made_at(&self, at: Option<usize>) -> Option<Made> {
        self.made.get(at?).copied()
    }

    /// The nodes of a constructor's arguments at a root, where they are there.
    pub(crate) fn made_of(&self, root: usize, constructor: usize) -> Option<Span> {
        let mut at = self.node(root).made;
        for _ in 0..self.made.len() {
            let made = self.made_at(at)?;
            if made.constructor == constructor {
                return Some(made.arguments);
            }
            at = made.next;
        }
        None
    }

    /// The nodes of a constructor's arguments are to be joined.
    fn join_row(&mut self, one: Span, other: Span) -> Result<(), Memory> {
        for place in 0..one.count.min(other.count) {
            let pair = (self.argument(one, place), self.argument(other, place));
            self.due.push(pair)?;
        }
        Ok(())
    }

    /// A constructor of another node with nodes of its arguments, which becomes one of a root.
    fn join_made(&mut self, root: usize, at: usize, made: Made) -> Result<(), Memory> {
        match self.made_of(root, made.constructor) {
            Some(span) => self.join_row(span, made.arguments),
            None => {
                let next = self.node(root).made;
                if let Some(entry) = self.made.get_mut(at) {
                    entry.next = next;
                }
                self.set_made(root, Some(at));
                Ok(())
            }
        }
    }

    /// All constructors of another node with nodes of their arguments.
    fn join_all_made(&mut self, root: usize, first: Option<usize>) -> Result<(), Memory> {
        let mut at = first;
        for _ in 0..self.made.len() {
            let (Some(here), Some(made)) = (at, self.made_at(at)) else {
                return Ok(());
            };
            at = made.next;
            self.join_made(root, here, made)?;
        }
        Ok(())
    }

    /// A root becomes part of another one.
    fn link(&mut self, root: usize, part: usize, size: usize) {
        if let Some(node) = self.nodes.get_mut(part) {
            node.parent = root;
        }
        if let Some(node) = self.nodes.get_mut(root) {
            node.size = size;
        }
    }

    /// Joins a smaller root to a larger one.
    fn join_to(
        &mut self,
        tables: &Tables,
        root: usize,
        large: Node,
        part: usize,
        small: Node,
    ) -> Result<(), Memory> {
        self.link(root, part, large.size.saturating_add(small.size));
        self.join_parts(tables, root, large.parts, small.parts)?;
        self.join_all_made(root, small.made)
    }

    /// Joins two nodes, but not yet their parts.
    fn join_one(&mut self, tables: &Tables, a: usize, b: usize) -> Result<(), Memory> {
        let one = self.root(a);
        let other = self.root(b);
        if one == other {
            return Ok(());
        }
        let first = self.node(one);
        let second = self.node(other);
        if first.size < second.size {
            self.join_to(tables, other, second, one, first)
        } else {
            self.join_to(tables, one, first, other, second)
        }
    }

    /// Joins two nodes of equal types, and their parts one by one.
    pub fn join(&mut self, tables: &Tables, a: usize, b: usize) -> Result<(), Memory> {
        self.due.push((a, b))?;
        for _ in 0..u64::MAX {
            let Some((one, other)) = self.due.pop() else {
                break;
            };
            self.join_one(tables, one, other)?;
        }
        Ok(())
    }
}
