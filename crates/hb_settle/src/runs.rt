use crate::fixities::Fixities;
use hb_base::{List, Memory, Name, Place, fixed};
use hb_fixity::{Grouped, Operator, group};
use hb_stack::Stack;
use hb_tree::{Expr, ExprKind};
use std::alloc::Global;

/// A function applied to an argument, at whose place the application stands.
pub(crate) fn applied(alloc: Global, f: Expr, x: Expr) -> Result<Expr, Memory> {
    let place = x.place;
    Expr::apply(alloc, place, f, x)
}

/// The constructor of pairs, at this place, applied to two parts.
pub(crate) fn paired(
    alloc: Global,
    place: Place,
    first: Expr,
    second: Expr,
) -> Result<Expr, Memory> {
    let half = applied(alloc, Expr::con(place, fixed::PAIR), first)?;
    applied(alloc, half, second)
}

/// The name that stands as an operator between two operands.
fn operator_name(operator: &Expr) -> Name {
    match &operator.kind {
        ExprKind::Var(name) => *name,
        ExprKind::Con(name) => *name,
        _ => fixed::WILDCARD,
    }
}

/// An operator of a run, with the fixity of its name.
fn operator_of(fixities: &Fixities, operator: &Expr) -> Operator {
    let name = operator_name(operator);
    Operator {
        place: operator.place,
        name,
        fixity: fixities.of(name),
    }
}

/// What operands with operators between them group to. The last operands come first.
pub(crate) fn grouped(
    alloc: Global,
    fixities: &Fixities,
    mut operands: Vec<Expr>,
    operators: &List<Expr>,
) -> Result<Option<Grouped>, Memory> {
    let mut rest = Stack::new(alloc);
    for operator in operators.as_slice().iter().rev() {
        if let Some(operand) = operands.pop() {
            rest.push((operator_of(fixities, operator), operand))?;
        }
    }
    match operands.pop() {
        Some(first) => {
            let grouped = group(alloc, first, rest)?;
            Ok(Some(grouped))
        }
        None => Ok(None),
    }
}
