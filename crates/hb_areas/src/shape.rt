use crate::cells::{cell_type, form_at};
use hb_area::AreaForm;
use hb_base::Memory;
use hb_layouts::{Layouts, declared_number};
use hb_types::{Atom, Form, Types};
use std::alloc::Global;

/// The number of `Array` among type constructors.
const ARRAY: u32 = 12;

/// How many elements the array type at a place has, and the type of an element.
pub fn array_of(types: &Types, place: usize) -> Option<(u64, usize)> {
    let Form::Apply(half, element) = form_at(types, place) else {
        return None;
    };
    let Form::Apply(function, count) = form_at(types, half) else {
        return None;
    };
    match (form_at(types, function), form_at(types, count)) {
        (Form::Leaf(Atom::Con(ARRAY)), Form::Leaf(Atom::Nat(count))) => Some((count, element)),
        _ => None,
    }
}

/// The number of the struct that the type at a place is, among the declared types.
pub fn struct_of(types: &Types, place: usize) -> Option<u32> {
    u32::try_from(declared_number(types, place)?).ok()
}

/// A type that is no array.
fn no_array(layouts: &Layouts, types: &Types, place: usize) -> AreaForm {
    match struct_of(types, place) {
        Some(number) => AreaForm::Struct(number),
        None => match cell_type(layouts, types, place) {
            Some(cell) => AreaForm::Cell(cell.form),
            None => AreaForm::Broken,
        },
    }
}

/// The form of the area type at a place. Structs have their numbers among the declared types.
pub fn area_form(
    alloc: Global,
    layouts: &Layouts,
    types: &Types,
    place: usize,
) -> Result<AreaForm, Memory> {
    let mut counts = Vec::new(alloc);
    let mut at = place;
    for _ in 0..types.len() {
        match array_of(types, at) {
            Some((count, element)) => {
                counts.push(count)?;
                at = element;
            }
            None => break,
        }
    }
    let mut form = no_array(layouts, types, at);
    for count in counts.iter().rev() {
        form = AreaForm::Array(*count, Box::new(alloc, form)?);
    }
    Ok(form)
}
