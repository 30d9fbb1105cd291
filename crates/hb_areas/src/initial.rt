use crate::cells::cell_type;
use crate::shape::{array_of, struct_of};
use crate::structs::Structs;
use hb_base::Name;
use hb_declared::{Declared, DeclaredType, StructField};
use hb_layouts::Layouts;
use hb_tree::{FieldInit, InitExpr, InitKind};
use hb_types::Types;

/// The most elements of an array with an `each`.
const ELEMENTS: u64 = 0x8000_0000;

/// What an initialiser is looked at with.
#[derive(Clone, Copy)]
pub(crate) struct Look<'a> {
    pub(crate) declared: &'a Declared,
    pub(crate) layouts: &'a Layouts,
    pub(crate) structs: &'a Structs,
}

/// The field of a struct that has a name.
pub(crate) fn field_named(of: &DeclaredType, name: Name) -> Option<StructField> {
    for part in of.parts.as_slice() {
        if let hb_declared::StructPart::Field(field) = part {
            if field.name.name == name {
                return Some(*field);
            }
        }
    }
    None
}

fn is_named(fields: &[FieldInit], name: Name) -> bool {
    fields.iter().any(|field| field.name.name == name)
}

impl Look<'_> {
    /// Some field that no initialiser names has a cell with a reference.
    fn leaves_reference(&self, of: &DeclaredType, fields: &[FieldInit]) -> bool {
        for part in of.parts.as_slice() {
            if let hb_declared::StructPart::Field(field) = part {
                let has = self
                    .structs
                    .has_reference(self.layouts, &of.types, field.of);
                if has && !is_named(fields, field.name.name) {
                    return true;
                }
            }
        }
        false
    }
}

/// The fields of an initialiser are none of a struct, or one begins in another form than its type.
#[cycle(initialisers)]
#[tactic(auto, using(hb_settle::proofs::Parts::init_falls))]
fn fields_wrong(fields: &[FieldInit], look: Look, types: &Types, place: usize) -> bool {
    let Some(number) = struct_of(types, place) else {
        return true;
    };
    let Some(of) = look.declared.types.as_slice().get(number as usize) else {
        return true;
    };
    for field_init in fields {
        match field_named(of, field_init.name.name) {
            Some(field) => {
                if is_wrong(&field_init.init, look, &of.types, field.of) {
                    return true;
                }
            }
            None => return true,
        }
    }
    look.leaves_reference(of, fields)
}

/// Whether an initialiser has another form than the area type at a place, or leaves a cell with a reference.
#[cycle(initialisers)]
pub(crate) fn is_wrong(init: &InitExpr, look: Look, types: &Types, place: usize) -> bool {
    match &init.kind {
        InitKind::Each(_, part) => match array_of(types, place) {
            Some((count, element)) => {
                count == 0 || count > ELEMENTS || is_wrong(part, look, types, element)
            }
            None => true,
        },
        InitKind::Fields(fields) => fields_wrong(fields.as_slice(), look, types, place),
        InitKind::Cell(_) => cell_type(look.layouts, types, place).is_none(),
    }
}
