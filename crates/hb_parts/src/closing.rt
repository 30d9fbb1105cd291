use crate::graph::{Graph, Parts, Span};
use crate::heads::{ACTION, ARROW, BIT, IN, IX, NON_ZERO, OUT, REF, SIGNED, UNSIGNED};
use crate::spines::Head;
use crate::tables::Tables;
use hb_base::{Memory, limits};
use hb_mono::DeclaredForm;
use indexmap::IndexMap;
use std::alloc::Global;

/// What the values of a type are, by nodes: one word with so many numbers, or 0 for all 2^32; a number or an index out of its range;
/// data, with a span of nodes for the arguments of each constructor; functions from the first node to the second; actions with the
/// node of what they give; or a type without values.
#[derive(Debug, Drop)]
pub enum Shape {
    Word(u32),
    Outside,
    Data(Vec<Span>),
    Arrow(usize, usize),
    Action(usize),
    Nothing,
}

/// What the nodes of types share that are looked into once all nodes are joined: one node for each type of the table, and one for each
/// template at the same parameters. Nothing is made there, so nothing is lost where these are one.
#[derive(Drop)]
pub struct Closing {
    wholes: IndexMap<usize, usize>,
    templates: IndexMap<(usize, usize), usize>,
    lists: IndexMap<(usize, usize), usize>,
}

/// A word of so many bits.
fn bits(width: u64) -> Shape {
    match u32::try_from(width) {
        Ok(width) if width >= 1 && width < limits::BIT_WIDTH => Shape::Word(1u32.wrapping_shl(
            width,
        )),
        Ok(width) if width == limits::BIT_WIDTH => Shape::Word(0),
        _ => Shape::Outside,
    }
}

/// An index below a number.
fn index(numbers: u64) -> Shape {
    match u32::try_from(numbers) {
        Ok(numbers) if numbers >= 1 && numbers <= 0x8000_0000 => Shape::Word(numbers),
        _ => Shape::Outside,
    }
}

impl Closing {
    pub fn new(alloc: Global) -> Closing {
        Closing {
            wholes: IndexMap::new(alloc),
            templates: IndexMap::new(alloc),
            lists: IndexMap::new(alloc),
        }
    }

    /// The node of a type of the table.
    fn whole(&mut self, graph: &mut Graph, tables: &Tables, place: usize) -> Result<usize, Memory> {
        let first = tables.first(place);
        if let Some(node) = self.wholes.get(&first) {
            return Ok(*node);
        }
        let node = graph.whole(first)?;
        self.wholes.insert(first, node)?;
        Ok(node)
    }

    /// A number for a list with one more item.
    fn longer(&mut self, list: usize, item: usize) -> Result<usize, Memory> {
        if let Some(found) = self.lists.get(&(list, item)) {
            return Ok(*found);
        }
        let number = self.lists.len().saturating_add(1);
        self.lists.insert((list, item), number)?;
        Ok(number)
    }

    /// A number for the nodes of parameters.
    fn list(&mut self, graph: &Graph, parameters: Span) -> Result<usize, Memory> {
        let mut list = 0;
        for parameter in graph.arguments(parameters) {
            list = self.longer(list, graph.root(*parameter))?;
        }
        Ok(list)
    }

    /// The node of a template at parameters that have this number.
    fn template(
        &mut self,
        graph: &mut Graph,
        tables: &Tables,
        number: usize,
        parameters: Span,
        list: usize,
    ) -> Result<usize, Memory> {
        if let Some(node) = self.templates.get(&(number, list)) {
            return Ok(*node);
        }
        let node = graph.template(tables, number, parameters)?;
        self.templates.insert((number, list), node)?;
        Ok(node)
    }

    /// The nodes of a constructor's arguments.
    fn row(
        &mut self,
        graph: &mut Graph,
        tables: &Tables,
        constructor: usize,
        parameters: Span,
    ) -> Result<Span, Memory> {
        let list = self.list(graph, parameters)?;
        let mut nodes = Vec::new(graph.alloc);
        for number in tables.declared.arguments(constructor).places() {
            nodes.push(self.template(graph, tables, number, parameters, list)?)?;
        }
        graph.put_all(&nodes)
    }

    /// The arguments of each constructor of a data type.
    fn rows(
        &mut self,
        graph: &mut Graph,
        tables: &Tables,
        root: usize,
        con: u32,
        parameters: Span,
    ) -> Result<Shape, Memory> {
        let constructors = tables.declared.constructors(con);
        let made = graph.made_rows(root, constructors)?;
        let mut rows = Vec::new(graph.alloc);
        for (place, known) in made.iter().enumerate() {
            let row = match known {
                Some(span) => *span,
                None => {
                    let constructor = constructors.first.saturating_add(place);
                    self.row(graph, tables, constructor, parameters)?
                }
            };
            rows.push(row)?;
        }
        Ok(Shape::Data(rows))
    }

    /// Looks into a root.
    fn look(
        &mut self,
        graph: &mut Graph,
        tables: &Tables,
        root: usize,
    ) -> Result<Option<(u32, Span)>, Memory> {
        let Parts::Whole(place) = graph.node(root).parts else {
            return graph.look(tables, root);
        };
        let spine = tables.spines.at(place);
        let Head::Con(con) = spine.head else {
            return Ok(None);
        };
        let mut nodes = Vec::new(graph.alloc);
        for argument in tables.spines.arguments(spine.arguments) {
            nodes.push(self.whole(graph, tables, *argument)?)?;
        }
        let span = graph.put_all(&nodes)?;
        graph.set_parts(root, Parts::Con(con, span));
        Ok(Some((con, span)))
    }

    /// What the values of a root's type are. No nodes are joined after the first call.
    pub fn shape(
        &mut self,
        graph: &mut Graph,
        tables: &Tables,
        root: usize,
    ) -> Result<Shape, Memory> {
        let Some((con, span)) = self.look(graph, tables, root)? else {
            return Ok(Shape::Nothing);
        };
        match tables.declared.form(con) {
            Some(DeclaredForm::Data) => self.rows(graph, tables, root, con, span),
            Some(DeclaredForm::Bits(width)) => Ok(bits(width as u64)),
            Some(DeclaredForm::Struct) => Ok(Shape::Nothing),
            None => Ok(graph.built_in(tables, con, span)),
        }
    }
}

impl Graph {
    /// The nodes of the arguments of some constructors, where they are there.
    fn made_rows(&self, root: usize, constructors: Span) -> Result<Vec<Option<Span>>, Memory> {
        let mut rows = vec![in self.alloc; None; constructors.count]?;
        let mut at = self.node(root).made;
        for _ in 0..self.made.len() {
            let Some(made) = self.made_at(at) else {
                break;
            };
            let place = made.constructor.saturating_sub(constructors.first);
            if let Some(row) = rows.get_mut(place) {
                *row = Some(made.arguments);
            }
            at = made.next;
        }
        Ok(rows)
    }

    /// The number that a node stands for.
    fn number(&self, tables: &Tables, node: usize) -> u64 {
        let Parts::Whole(place) = self.node(self.root(node)).parts else {
            return 0;
        };
        match tables.spines.at(place).head {
            Head::Number(number) => number,
            _ => 0,
        }
    }

    /// What the values of a built-in type are.
    fn built_in(&self, tables: &Tables, con: u32, arguments: Span) -> Shape {
        let first = self.root(self.argument(arguments, 0));
        match con {
            BIT => bits(self.number(tables, first)),
            IX => index(self.number(tables, first)),
            ARROW => Shape::Arrow(first, self.root(self.argument(arguments, 1))),
            ACTION => Shape::Action(first),
            UNSIGNED | SIGNED | NON_ZERO | IN | OUT | REF => Shape::Word(0),
            _ => Shape::Nothing,
        }
    }
}
