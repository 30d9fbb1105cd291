use crate::shape::form_at;
use hb_base::Memory;
use hb_types::{Atom, Form, Types};
use hb_unknowns::Pair;
use std::alloc::Global;

/// Whether a form is a variable or an unknown.
fn is_variable(form: Form) -> bool {
    matches!(form, Form::Unknown(_) | Form::Leaf(Atom::Var(_)))
}

/// Whether two forms can be one, if their parts can: the parts are put among what is left.
fn step(left: Form, right: Form, rest: &mut Vec<Pair>) -> Result<bool, Memory> {
    if is_variable(left) || is_variable(right) {
        return Ok(true);
    }
    match (left, right) {
        (Form::Apply(f, x), Form::Apply(g, y)) => {
            rest.push(Pair { left: f, right: g })?;
            rest.push(Pair { left: x, right: y })?;
            Ok(true)
        }
        (Form::Leaf(a), Form::Leaf(b)) => Ok(a == b),
        _ => Ok(false),
    }
}

/// Whether types can be the same one by one, as far as their constructors tell: a variable on either side is taken to be
/// any type, and each of its occurrences another one. Where the answer is `false` they have no common instance.
pub fn may_agree(
    alloc: Global,
    types: &Types,
    lefts: &[usize],
    rights: &[usize],
) -> Result<bool, Memory> {
    let mut rest = Vec::new(alloc);
    for (left, right) in lefts.iter().zip(rights.iter()) {
        rest.push(Pair {
            left: *left,
            right: *right,
        })?;
    }
    for _ in 0..u64::MAX {
        let Some(pair) = rest.pop() else {
            return Ok(true);
        };
        let left = form_at(types, pair.left).unwrap_or(Form::Unknown(0));
        let right = form_at(types, pair.right).unwrap_or(Form::Unknown(0));
        if !step(left, right, &mut rest)? {
            return Ok(false);
        }
    }
    Ok(true)
}
