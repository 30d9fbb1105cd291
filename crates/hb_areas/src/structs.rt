use crate::cells::cell_type;
use crate::fault::Faults;
use crate::shape::{area_form, array_of, struct_of};
use hb_area::{AreaFault, Extent, StructForm, StructPart, struct_extent, struct_fault};
use hb_base::{List, Memory};
use hb_declared::{Declared, DeclaredType, TypeForm};
use hb_layouts::{Layouts, dependency_order};
use hb_types::Types;
use std::alloc::Global;

/// The structs of a program by their numbers among the declared types: their descriptions, the bytes and the alignment of those whose
/// fields are all stored, and which have a cell with a reference.
#[derive(Drop)]
pub struct Structs {
    pub forms: Vec<Option<StructForm>>,
    pub extents: Vec<Option<Extent>>,
    pub references: Vec<bool>,
}

/// A type without the arrays round it; and whether one of these has no element.
pub(crate) fn innermost(types: &Types, place: usize) -> (usize, bool) {
    let mut at = place;
    let mut is_empty = false;
    for _ in 0..types.len() {
        match array_of(types, at) {
            Some((count, element)) => {
                is_empty = is_empty || count == 0;
                at = element;
            }
            None => break,
        }
    }
    (at, is_empty)
}

fn form_of(alloc: Global, layouts: &Layouts, of: &DeclaredType) -> Result<StructForm, Memory> {
    let mut parts = List::of(Vec::new(alloc));
    for part in of.parts.as_slice() {
        match part {
            hb_declared::StructPart::Pad(bytes) => parts.push(StructPart::Pad(*bytes))?,
            hb_declared::StructPart::Field(field) => {
                let form = area_form(alloc, layouts, &of.types, field.of)?;
                parts.push(StructPart::Field(field.name.name, field.name.place, form))?;
            }
        }
    }
    Ok(StructForm {
        name: of.name.name,
        place: of.place,
        size: of.number,
        parts,
    })
}

/// The structs of the fields of a struct.
fn needed(alloc: Global, of: &DeclaredType) -> Result<Vec<usize>, Memory> {
    let mut needed = Vec::new(alloc);
    for part in of.parts.as_slice() {
        if let hb_declared::StructPart::Field(field) = part {
            if let Some(number) = struct_of(&of.types, innermost(&of.types, field.of).0) {
                needed.push(number as usize)?;
            }
        }
    }
    Ok(needed)
}

impl Structs {
    /// Whether a value of the area type at a place has a cell with a reference.
    pub fn has_reference(&self, layouts: &Layouts, types: &Types, place: usize) -> bool {
        let (at, is_empty) = innermost(types, place);
        if is_empty {
            return false;
        }
        match struct_of(types, at) {
            Some(number) => match self.references.get(number as usize) {
                Some(has) => *has,
                None => false,
            },
            None => match cell_type(layouts, types, at) {
                Some(cell) => cell.is_reference,
                None => false,
            },
        }
    }

    fn fields_have_reference(&self, layouts: &Layouts, of: &DeclaredType) -> bool {
        for part in of.parts.as_slice() {
            if let hb_declared::StructPart::Field(field) = part {
                if self.has_reference(layouts, &of.types, field.of) {
                    return true;
                }
            }
        }
        false
    }

    fn set(&mut self, number: usize, form: StructForm, has: bool) {
        let extent = struct_extent(&self.extents, &form);
        if let Some(entry) = self.extents.get_mut(number) {
            *entry = extent;
        }
        if let Some(entry) = self.references.get_mut(number) {
            *entry = has;
        }
        if let Some(entry) = self.forms.get_mut(number) {
            *entry = Some(form);
        }
    }

    /// Lays out a struct whose fields' structs are laid out.
    fn lay(
        &mut self,
        alloc: Global,
        layouts: &Layouts,
        number: usize,
        of: &DeclaredType,
        faults: &mut Faults,
    ) -> Result<(), Memory> {
        let form = form_of(alloc, layouts, of)?;
        if let Some((place, fault)) = struct_fault(&self.extents, &form) {
            faults.put_area(place, fault);
        }
        let has = self.fields_have_reference(layouts, of);
        self.set(number, form, has);
        Ok(())
    }

    fn none(alloc: Global, count: usize) -> Result<Structs, Memory> {
        let mut structs = Structs {
            forms: Vec::new(alloc),
            extents: Vec::new(alloc),
            references: Vec::new(alloc),
        };
        for _ in 0..count {
            structs.forms.push(None)?;
            structs.extents.push(None)?;
            structs.references.push(false)?;
        }
        Ok(structs)
    }

    /// Lays out all structs of a program.
    pub fn of(
        alloc: Global,
        declared: &Declared,
        layouts: &Layouts,
        faults: &mut Faults,
    ) -> Result<Structs, Memory> {
        let all = declared.types.as_slice();
        let mut needs = Vec::new(alloc);
        for of in all {
            let needed = needed(alloc, of)?;
            needs.push(needed)?;
        }
        let order = dependency_order(alloc, &needs)?;
        let mut structs = Structs::none(alloc, all.len())?;
        for number in &order {
            if let Some(of) = all.get(*number) {
                if of.form == TypeForm::Struct {
                    structs.lay(alloc, layouts, *number, of, faults)?;
                }
            }
        }
        Ok(structs)
    }
}

/// What is wrong with an area of this form.
pub(crate) fn form_fault(structs: &Structs, form: &hb_area::AreaForm) -> Option<AreaFault> {
    match hb_area::measure_area(form, &structs.extents) {
        Some(measure) => {
            if measure.is_large {
                Some(AreaFault::Size)
            } else if measure.is_uneven {
                Some(AreaFault::Stride)
            } else {
                None
            }
        }
        None => {
            if has_broken(form) {
                Some(AreaFault::NotStored)
            } else {
                None
            }
        }
    }
}

/// Whether a cell in it, outside of structs, has a type that is not stored.
fn has_broken(form: &hb_area::AreaForm) -> bool {
    match form {
        hb_area::AreaForm::Broken => true,
        hb_area::AreaForm::Array(_, part) => has_broken(part),
        hb_area::AreaForm::Cell(_) => false,
        hb_area::AreaForm::Struct(_) => false,
    }
}
