use crate::graph::{Graph, Made, Parts, Span};
use crate::heads::{ACTION, ARROW};
use crate::spines::Head;
use crate::tables::Tables;
use crate::templates::Piece;
use hb_base::Memory;

impl Graph {
    /// Looks into a root: its type constructor and the nodes of its arguments. A number has neither.
    pub(crate) fn look(
        &mut self,
        tables: &Tables,
        root: usize,
    ) -> Result<Option<(u32, Span)>, Memory> {
        let place = match self.node(root).parts {
            Parts::Con(con, span) => return Ok(Some((con, span))),
            Parts::Whole(place) => place,
        };
        let spine = tables.spines.at(place);
        let Head::Con(con) = spine.head else {
            return Ok(None);
        };
        let mut nodes = Vec::new(self.alloc);
        for argument in tables.spines.arguments(spine.arguments) {
            nodes.push(self.whole(*argument)?)?;
        }
        let span = self.put_all(&nodes)?;
        self.set_parts(root, Parts::Con(con, span));
        Ok(Some((con, span)))
    }

    /// Puts nodes at the end of the arguments.
    pub(crate) fn put_all(&mut self, nodes: &[usize]) -> Result<Span, Memory> {
        let first = self.arguments.len();
        for node in nodes {
            self.arguments.push(*node)?;
        }
        Ok(Span {
            first,
            count: nodes.len(),
        })
    }

    /// What the functions of a node take and give. Another type takes and gives itself.
    pub fn arrow(&mut self, tables: &Tables, node: usize) -> Result<(usize, usize), Memory> {
        let root = self.root(node);
        match self.look(tables, root)? {
            Some((ARROW, span)) => Ok((self.argument(span, 0), self.argument(span, 1))),
            _ => Ok((root, root)),
        }
    }

    /// What the actions of a node give. Another type gives itself.
    pub fn action(&mut self, tables: &Tables, node: usize) -> Result<usize, Memory> {
        let root = self.root(node);
        match self.look(tables, root)? {
            Some((ACTION, span)) => Ok(self.argument(span, 0)),
            _ => Ok(root),
        }
    }

    /// The last so many nodes of a stack are taken off it.
    fn take_last(&mut self, stack: &mut Vec<usize>, count: usize) -> Result<Span, Memory> {
        let first = stack.len().saturating_sub(count);
        let span = self.put_all(stack.get(first..).unwrap_or(&[]))?;
        stack.truncate(first);
        Ok(span)
    }

    /// A new node for a parameter's type with more arguments.
    fn more_applied(
        &mut self,
        tables: &Tables,
        parameter: usize,
        more: Span,
    ) -> Result<usize, Memory> {
        let root = self.root(parameter);
        let Some((con, before)) = self.look(tables, root)? else {
            return Ok(root);
        };
        let mut nodes = Vec::from_slice(self.alloc, self.arguments(before))?;
        nodes.extend_from_slice(self.arguments(more))?;
        self.applied(con, &nodes)
    }

    /// The node of a piece whose arguments are the last of a stack.
    fn piece(
        &mut self,
        tables: &Tables,
        parameters: Span,
        piece: Piece,
        stack: &mut Vec<usize>,
    ) -> Result<usize, Memory> {
        match piece {
            Piece::Parameter(number) => Ok(self.argument(parameters, number)),
            Piece::Whole(place) => self.whole(place),
            Piece::Con(con, count) => {
                let span = self.take_last(stack, count)?;
                self.fresh(Parts::Con(con, span))
            }
            Piece::Applied(number, count) => {
                let span = self.take_last(stack, count)?;
                self.more_applied(tables, self.argument(parameters, number), span)
            }
        }
    }

    /// A node for a template, with these nodes in the place of the parameters.
    pub(crate) fn template(
        &mut self,
        tables: &Tables,
        number: usize,
        parameters: Span,
    ) -> Result<usize, Memory> {
        let mut stack = Vec::new(self.alloc);
        for piece in tables.declared.templates.pieces(number).iter().rev() {
            let node = self.piece(tables, parameters, *piece, &mut stack)?;
            stack.push(node)?;
        }
        Ok(stack.pop().unwrap_or(0))
    }

    /// New nodes for the arguments of a constructor.
    fn row(
        &mut self,
        tables: &Tables,
        constructor: usize,
        parameters: Span,
    ) -> Result<Span, Memory> {
        let mut nodes = Vec::new(self.alloc);
        for template in tables.declared.arguments(constructor).places() {
            nodes.push(self.template(tables, template, parameters)?)?;
        }
        self.put_all(&nodes)
    }

    /// The nodes of the arguments of a constructor that builds values of a node's type.
    pub fn constructor(
        &mut self,
        tables: &Tables,
        node: usize,
        constructor: usize,
    ) -> Result<Span, Memory> {
        let root = self.root(node);
        if let Some(span) = self.made_of(root, constructor) {
            return Ok(span);
        }
        let Some((_, parameters)) = self.look(tables, root)? else {
            return Ok(Span { first: 0, count: 0 });
        };
        let span = self.row(tables, constructor, parameters)?;
        let next = self.node(root).made;
        let place = self.made.len();
        self.set_made(root, Some(place));
        self.made.push(Made {
            constructor,
            arguments: span,
            next,
        })?;
        Ok(span)
    }
}
