//! Which types have values, and which rows match some.
use crate::pattern::{PatternForm, Patterns, pattern_at};
use crate::spelling::{Spelling, Spellings};
use hb_base::Memory;
use std::alloc::Global;

fn is_valued(valued: &[bool], place: usize) -> bool {
    match valued.get(place) {
        Some(one) => *one,
        None => false,
    }
}

/// Whether the types at these places all have values, by the answer of `valued_types`. Takes no memory.
pub fn are_valued(valued: &[bool], places: &[usize]) -> bool {
    for place in places {
        if !is_valued(valued, *place) {
            return false;
        }
    }
    true
}

fn has_value(valued: &[bool], form: &Spelling) -> bool {
    match form {
        Spelling::Data(cons) => {
            for arguments in cons.as_slice() {
                if are_valued(valued, arguments.as_slice()) {
                    return true;
                }
            }
            false
        }
        Spelling::Index(count) => *count > 0,
        Spelling::Bits(_) | Spelling::Opaque => true,
    }
}

/// For each type whether it has values.
pub fn valued_types(alloc: Global, types: &Spellings) -> Result<Vec<bool>, Memory> {
    let mut valued = Vec::new(alloc);
    for form in types.forms.as_slice() {
        let one = has_value(&valued, form);
        valued.push(one)?;
    }
    Ok(valued)
}

/// Whether a pattern matches some value, if those of its parts do.
fn fits(types: &Spellings, valued: &[bool], pattern: Option<&PatternForm>, of: usize) -> bool {
    match (pattern, types.form(of)) {
        (None | Some(PatternForm::Any), _) => is_valued(valued, of),
        (Some(PatternForm::Con(con, _)), Some(Spelling::Data(cons))) => {
            match cons.as_slice().get(*con as usize) {
                Some(arguments) => are_valued(valued, arguments.as_slice()),
                None => false,
            }
        }
        (Some(PatternForm::Bits(cube)), Some(Spelling::Bits(width))) => cube.width == *width,
        (Some(PatternForm::Index(number)), Some(Spelling::Index(count))) => *number < *count,
        _ => false,
    }
}

/// A pattern and the type at which it stands.
#[derive(Clone, Copy, Debug)]
struct Typed {
    pattern: usize,
    of: usize,
}

/// Puts each of the patterns with its type. A pattern that is missing matches all values.
fn push_typed(pending: &mut Vec<Typed>, patterns: &[usize], of: &[usize]) -> Result<(), Memory> {
    for index in 0..of.len() {
        if let Some(one) = of.get(index) {
            let pattern = pattern_at(patterns, index);
            pending.push(Typed { pattern, of: *one })?;
        }
    }
    Ok(())
}

/// Puts the parts of a pattern with their types.
fn push_parts(
    types: &Spellings,
    patterns: &Patterns,
    typed: &Typed,
    pending: &mut Vec<Typed>,
) -> Result<(), Memory> {
    if let Some(PatternForm::Con(con, parts)) = patterns.form(typed.pattern) {
        let arguments = types.arguments(typed.of, *con);
        push_typed(pending, parts.as_slice(), arguments)?;
    }
    Ok(())
}

/// Whether a row matches some values of these types.
pub fn matches_some(
    alloc: Global,
    types: &Spellings,
    valued: &[bool],
    patterns: &Patterns,
    row: &[usize],
    of: &[usize],
) -> Result<bool, Memory> {
    let mut pending = Vec::new(alloc);
    push_typed(&mut pending, row, of)?;
    for _ in 0..u64::MAX {
        match pending.pop() {
            Some(typed) => {
                if !fits(types, valued, patterns.form(typed.pattern), typed.of) {
                    return Ok(false);
                }
                push_parts(types, patterns, &typed, &mut pending)?;
            }
            None => return Ok(true),
        }
    }
    Ok(true)
}
