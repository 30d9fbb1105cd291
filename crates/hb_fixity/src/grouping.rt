ghost use Rattle.std.specs.Prelude.{◌≡◌, IfOk, OnOk, None, Some, map};
ghost use Rattle.hb_fixity.specs.Fixities.{Operand, OpTree, Groups, applied, operator_applied, expr_of, IsFirstClash};
ghost use Rattle.hb_fixity.specs.Reading.{State, closed, kept, clashes_on, put, reads, closed_all, start, ended, clash_of, grouped};
ghost use Rattle.hb_fixity.specs.States.{state_of};
ghost use Rattle.hb_tree.specs.Expressions.{Expr as AnyExpr};
ghost use Rattle.hb_fixity.specs.declared.fixity.Operator.{Operator as AnOperator};

use crate::fixity::{Fixity, Operator, goes_left, goes_right};
use hb_base::Memory;
use hb_stack::Stack;
use hb_tree::Expr;
use std::alloc::Global;

/// What a run groups to. Where there is a clash, the run groups in no way: the clash is the first operator for which the
/// run up to its right operand has none, and the tree is then one of the operands and operators, grouped in some way.
#[derive(Debug, Drop)]
pub struct Grouped {
    pub tree: Expr,
    pub clash: Option<Operator>,
}

/// The part of a run that was read: operands with the operators behind them, whose right operand is open, and the
/// operand that was read last.
#[derive(Debug, Drop)]
struct Reader {
    pending: Stack<(Expr, Operator)>,
    now: Expr,
    clash: Option<Operator>,
}

/// An operator applied to its two operands. An application stands at the argument that it adds.
fn applied(alloc: Global, op: Operator, left: Expr, right: Expr) -> Result<Expr, Memory>
    ensures { IfOk result (λ e. e ≡ operator_applied op left right) }
{
    let head = Expr::var(op.place, op.name);
    let at_left = left.place;
    let at_right = right.place;
    let half = Expr::apply(alloc, at_left, head, left)?;
    let whole = Expr::apply(alloc, at_right, half, right)?;
    Ok(whole)
}

/// An operand that is closed, and whether the open operator before it and the next one clash.
#[derive(Debug, Drop)]
struct Closed {
    now: Expr,
    clashes: bool,
}

/// Closes the open operators that belong into the left operand of the next one.
fn close(
    alloc: Global,
    pending: &mut Stack<(Expr, Operator)>,
    now: Expr,
    next: Fixity,
) -> Result<Closed, Memory>
    ensures now { IfOk result (λ c. c.now ≡ closed operator_applied next pending.old now) }
    ensures clash { IfOk result (λ c. c.clashes ≡ clashes_on (kept next pending.old) next) }
    ensures open_ones { OnOk result (pending.new ≡ kept next pending.old) }
{
    match pending.pop() {
        None => Ok(Closed {
            now,
            clashes: false,
        }),
        Some((left, op)) => {
            if goes_left(op.fixity, next) {
                let now = applied(alloc, op, left, now)?;
                close(alloc, pending, now, next)
            } else {
                pending.push((left, op))?;
                Ok(Closed {
                    now,
                    clashes: !goes_right(op.fixity, next),
                })
            }
        }
    }
}

/// Closes all open operators.
fn close_all(alloc: Global, mut pending: Stack<(Expr, Operator)>, now: Expr) -> Result<Expr, Memory>
    ensures { IfOk result (λ e. e ≡ closed_all operator_applied pending now) }
{
    match pending.pop() {
        None => Ok(now),
        Some((left, op)) => {
            let now = applied(alloc, op, left, now)?;
            close_all(alloc, pending, now)
        }
    }
}

/// The first clash that is known, with what is seen at this operator.
fn first_clash(known: Option<Operator>, clashes: bool, op: Operator) -> Option<Operator>
    ensures { result ≡ clash_of known clashes op }
{
    match known {
        Some(first) => Some(first),
        None => { if clashes { Some(op) } else { None } }
    }
}

impl Reader {
    /// Reads the next operator with the operand behind it.
    fn put(self, alloc: Global, op: Operator, next: Expr) -> Result<Reader, Memory>
        ensures { IfOk result (λ r. state_of r ≡ put operator_applied (state_of self) op next) }
    {
        let Reader {
            mut pending,
            now,
            clash,
        } = self;
        let left = close(alloc, &mut pending, now, op.fixity)?;
        let Closed { now, clashes } = left;
        pending.push((now, op))?;
        Ok(Reader {
            pending,
            now: next,
            clash: first_clash(clash, clashes, op),
        })
    }

    /// Reads all of these, the top first.
    fn read(self, alloc: Global, mut rest: Stack<(Operator, Expr)>) -> Result<Reader, Memory>
        ensures { IfOk result (λ r. state_of r ≡ reads operator_applied (state_of self) rest) }
    {
        match rest.pop() {
            None => Ok(self),
            Some((op, next)) => {
                let reader = self.put(alloc, op, next)?;
                reader.read(alloc, rest)
            }
        }
    }
}

/// The tree that a run groups to: its first operand, and its operators, each with the operand behind it, the first on top.
pub fn group(alloc: Global, first: Expr, rest: Stack<(Operator, Expr)>) -> Result<Grouped, Memory>
    // What the run groups to, by the one tree that is right.
    ensures right { IfOk result (λ g. g.clash ≡ None → (t : OpTree) × Groups first rest t × (g.tree ≡ expr_of t)) }
    ensures only { IfOk result (λ g. (t : OpTree) → Groups first rest t → (g.clash ≡ None) × (g.tree ≡ expr_of t)) }

    // A clash is told exactly where no tree is right, and it is the first.
    ensures clash { IfOk result (λ g. (op : AnOperator) → g.clash ≡ Some op → IsFirstClash first rest op) }

    // The same, as it is computed.
    ensures tree { IfOk result (λ g. g.tree ≡ (grouped first rest).now) }
    ensures told { IfOk result (λ g. g.clash ≡ (grouped first rest).clash) }
{
    let reader = Reader {
        pending: Stack::new(alloc),
        now: first,
        clash: None,
    };
    let reader = reader.read(alloc, rest)?;
    let Reader {
        pending,
        now,
        clash,
    } = reader;
    let tree = close_all(alloc, pending, now)?;
    Ok(Grouped { tree, clash })
}
