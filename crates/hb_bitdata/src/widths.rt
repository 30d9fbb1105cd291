//! The widths of a declaration, and the first place where one breaks the rules.
ghost use Rattle.std.specs.Prelude.{◌≡◌, ◌≤◌, ℕ, min, is_none};
ghost use Rattle.std.specs.Option.{option_map};
ghost use Rattle.hb_bitdata.specs.Widths as spec;

use crate::form::{BitForm, ConForm, PartForm};
use hb_base::limits::BIT_WIDTH;
use hb_base::{List, Place};

/// Wider than any pattern.
const TOO_WIDE: u64 = 65;

/// The width of a part.
pub(crate) fn part_width(part: &PartForm) -> u64
    ensures { result ≡ spec.part_width part.now }
{
    match part {
        PartForm::Tag(width, _) => *width as u64,
        PartForm::Field(_, _, Some(width)) => *width,
        PartForm::Field(_, _, None) => 0,
    }
}

/// The width of parts, where every width of more than 64 counts as 65.
pub(crate) fn parts_width(parts: &[PartForm]) -> u64
    ensures { result ≡ min (spec.parts_width parts.now) 65 }
{
    let mut width = 0;
    let mut left = parts;
    while let Some((part, rest)) = left.split_first() {
        width = (width + part_width(part).min(TOO_WIDE)).min(TOO_WIDE);
        left = rest;
    }
    width
}

/// Whether a bitdata type may have this width.
fn is_range(width: u64) -> bool
    ensures { result ≡ spec.is_range width }
{
    1 <= width && width <= BIT_WIDTH as u64
}

/// The place of the first field whose type has no width, or one out of range.
fn bad_field(parts: &[PartForm]) -> Option<Place>
    ensures { result ≡ spec.bad_field parts.now }
{
    let mut left = parts;
    while let Some((part, rest)) = left.split_first() {
        match part {
            PartForm::Field(_, place, None) => return Some(*place),
            PartForm::Field(_, place, Some(width)) => {
                if !is_range(*width) {
                    return Some(*place);
                }
            },
            PartForm::Tag(_, _) => {},
        }
        left = rest;
    }
    None
}

/// The width of the first constructor whose fields all have a width in range, where more than 64 counts as 65.
fn first_width(cons: &[ConForm]) -> Option<u64>
    ensures { result ≡ option_map (λ width. min width 65) (spec.first_width cons.now) }
{
    let mut left = cons;
    while let Some((con, rest)) = left.split_first() {
        if bad_field(con.parts.as_slice()).is_none() {
            return Some(parts_width(con.parts.as_slice()));
        }
        left = rest;
    }
    None
}

/// Whether a constructor may have this width.
fn is_width(expected: Option<u64>, width: u64) -> bool
    ensures { result ≡ spec.is_width expected width }
{
    match expected {
        None => is_range(width),
        Some(expected) => is_range(width) && width == expected,
    }
}

/// The place of what is wrong with a constructor.
fn con_fault(expected: Option<u64>, con: &ConForm) -> Option<Place>
    ensures { result ≡ spec.con_fault expected con.now }
{
    let bad = bad_field(con.parts.as_slice());
    if bad.is_some() {
        return bad;
    }
    if is_width(expected, parts_width(con.parts.as_slice())) {
        None
    } else {
        Some(con.place)
    }
}

/// The first place where something is wrong with a constructor.
fn cons_fault(expected: Option<u64>, cons: &[ConForm]) -> Option<Place>
    ensures { result ≡ spec.cons_fault expected cons.now }
{
    let mut left = cons;
    while let Some((con, rest)) = left.split_first() {
        let fault = con_fault(expected, con);
        if fault.is_some() {
            return fault;
        }
        left = rest;
    }
    None
}

/// The first place where a width of the declaration breaks the rules.
pub(crate) fn first_fault(form: &BitForm) -> Option<Place>
    ensures { result ≡ spec.first_fault form.now }
{
    match form.width {
        Some(width) => cons_fault(Some(width), form.cons.as_slice()),
        None => cons_fault(first_width(form.cons.as_slice()), form.cons.as_slice()),
    }
}
