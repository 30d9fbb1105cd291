ghost use Rattle.std.specs.Prelude.{◌≡◌, ◌++◌, IfOk, OnOk, IsTrue, is_some};
ghost use Rattle.hb_read_types.specs.Taking.{TookSide};
ghost use Rattle.hb_read_program.specs.Frames.{first_at, side_moved, side_start, still_line, expr_moved, line_nothing};
ghost use Rattle.hb_read_program.specs.Running.{next_spot, sig_head, side_nodes, is_gone, Ended, LineWent};

use crate::leaf::end_values;
use crate::side::{Side, Spot};
use crate::worths::{mark, op, this_word, var};
use hb_base::{List, Memory, Place};
use hb_read_declarations::DeclNode;
use hb_read_expressions::State;
use hb_tokens::{Token, Word};
use hb_tree::NameAt;
use std::alloc::Global;

/// The names of a signature: the place of the first, so many before the last, and the last.
#[derive(Clone, Copy)]
pub struct SigHead {
    pub place: Place,
    pub count: usize,
    pub last: NameAt,
}

/// Where the reading of names stands behind the token, unless it is behind a name.
fn next_spot(spot: Spot, token: &Token) -> Option<Spot>
    ensures { result ≡ next_spot spot token.now }
{
    match spot {
        Spot::Want => match var(token) {
            Some(name) => Some(Spot::Named(name)),
            None => match mark(b'(', token) {
                Some(place) => Some(Spot::Open(place)),
                None => None,
            },
        },
        Spot::Open(place) => match op(token) {
            Some(operator) => Some(Spot::Operator(place, operator.name)),
            None => None,
        },
        Spot::Operator(place, name) => match mark(b')', token) {
            Some(_) => Some(Spot::Named(NameAt { place, name })),
            None => None,
        },
        Spot::Named(_) => None,
    }
}

/// The place of the first name.
fn first_at(count: usize, place: Place, name: NameAt) -> Place
    ensures { result ≡ first_at count place name }
{
    if count == 0 { name.place } else { place }
}

impl Side {
    /// No name is read.
    pub fn start(alloc: Global) -> Side
        ensures { result ≡ side_start }
    {
        let place = Place { line: 0, col: 0 };
        Side::Names(place, 0, List::of(Vec::new(alloc)), Spot::Want)
    }

    fn is_gone(&self) -> bool
        ensures { result ≡ is_gone self.now }
    {
        match self {
            Side::Gone => true,
            Side::Names(_, _, _, _) => false,
        }
    }

    /// Takes the token; where it cannot stand among the names of a signature, it is no signature.
    fn go_on(&mut self, token: &Token) -> Result<(), Memory>
        ensures { OnOk result (self.new ≡ side_moved self.old token.now) }
    {
        match self {
            Side::Gone => (),
            Side::Names(place, count, nodes, spot) => match *spot {
                Spot::Named(name) => {
                    if mark(b',', token).is_none() {
                        *self = Side::Gone;
                        return Ok(());
                    }
                    let Some(next) = count.checked_add(1) else {
                        return Err(Memory);
                    };
                    nodes.push(DeclNode::Name(name.place, name.name))?;
                    *place = first_at(*count, *place, name);
                    *count = next;
                    *spot = Spot::Want;
                }
                before => match next_spot(before, token) {
                    Some(next) => *spot = next,
                    None => *self = Side::Gone,
                },
            },
        }
        Ok(())
    }

    /// The names of a signature, if the token is the `::` behind them.
    pub fn sig_head(&self, token: &Token) -> Option<SigHead>
        ensures { result ≡ sig_head self.now token.now }
    {
        match self {
            Side::Names(place, count, _, Spot::Named(name)) => {
                if this_word(Word::DoubleColon, token).is_some() {
                    Some(SigHead {
                        place: first_at(*count, *place, *name),
                        count: *count,
                        last: *name,
                    })
                } else {
                    None
                }
            }
            _ => None,
        }
    }

    /// The nodes of the names before the last.
    pub fn into_nodes(self, alloc: Global) -> List<DeclNode>
        ensures { result ≡ side_nodes self }
    {
        match self {
            Side::Gone => List::of(Vec::new(alloc)),
            Side::Names(_, _, nodes, _) => nodes,
        }
    }
}

/// The equation takes the token, if it is one and the token can stand in it.
fn take_equation(equation: &mut Option<State>, token: &Token) -> Result<bool, Memory>
    ensures { IfOk result (λ taken. TookSide taken (expr_moved equation.old token.now) equation.old equation.new) }
{
    match equation {
        Some(state) => state.take(*token),
        None => Ok(false),
    }
}

/// An equation and the names of a signature beside it take the token, if it can stand in one of them, and what it cannot stand
/// in is gone. After false the equation is as it was.
pub fn go_on_line(
    equation: &mut Option<State>,
    side: &mut Side,
    token: &Token,
) -> Result<bool, Memory>
    ensures { IfOk result (λ taken. LineWent taken (still_line (expr_moved equation.old token.now) (side_moved side.old token.now)) equation.old equation.new side.new) }
{
    let taken = take_equation(equation, token)?;
    side.go_on(token)?;
    if taken {
        return Ok(true);
    }
    if side.is_gone() {
        return Ok(false);
    }
    *equation = None;
    Ok(true)
}

/// Puts out the nodes of the equation, if it is whole, and answers whether it is.
pub fn end_line(nodes: &mut List<DeclNode>, equation: Option<State>) -> Result<bool, Memory>
    ensures { IfOk result (λ ended. Ended ended (line_nothing equation) nodes.old nodes.new) }
{
    let Some(state) = equation else {
        return Ok(false);
    };
    let whole = state.finish()?;
    if !end_values(nodes, whole)? {
        return Ok(false);
    }
    nodes.push(DeclNode::Equation)?;
    Ok(true)
}
