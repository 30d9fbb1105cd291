use crate::layouts::Layouts;
use crate::widths::{bit_width, declared_number};
use hb_base::{List, Memory};
use hb_bitdata::{BitForm, ConForm, PartForm};
use hb_declared::{BitPart, Constructor, ConstructorForm, Declared, DeclaredType, TypeForm};
use std::alloc::Global;

/// The constructors of a declared type.
pub(crate) fn constructors<'a>(declared: &'a Declared, of: &DeclaredType) -> &'a [Constructor] {
    let all = declared.constructors.as_slice();
    let first = of.first as usize;
    let end = first.saturating_add(of.count as usize);
    all.get(first..end).unwrap_or(&[])
}

/// The parts of a bitdata constructor; another one has none.
fn parts(con: &Constructor) -> &[BitPart] {
    match &con.form {
        ConstructorForm::Bits(parts) => parts.as_slice(),
        ConstructorForm::Data(_) => &[],
    }
}

/// Puts the numbers of the declared types of a constructor's fields.
fn put_needed(needed: &mut Vec<usize>, con: &Constructor) -> Result<(), Memory> {
    for part in parts(con) {
        if let BitPart::Field(field) = part {
            if let Some(number) = declared_number(&con.scheme.types, field.of) {
                needed.push(number)?;
            }
        }
    }
    Ok(())
}

/// The declared types of the fields of a declared type, by their numbers.
pub(crate) fn needed(
    alloc: Global,
    declared: &Declared,
    of: &DeclaredType,
) -> Result<Vec<usize>, Memory> {
    let mut needed = Vec::new(alloc);
    if of.form == TypeForm::Bitdata {
        for con in constructors(declared, of) {
            put_needed(&mut needed, con)?;
        }
    }
    Ok(needed)
}

fn part_form(layouts: &Layouts, con: &Constructor, part: &BitPart) -> PartForm {
    match part {
        BitPart::Tag(width, value) => PartForm::Tag(*width, *value),
        BitPart::Field(field) => PartForm::Field(
            field.name.name,
            field.type_place,
            bit_width(layouts, &con.scheme.types, field.of),
        ),
    }
}

fn con_form(alloc: Global, layouts: &Layouts, con: &Constructor) -> Result<ConForm, Memory> {
    let mut forms = List::of(Vec::new(alloc));
    for part in parts(con) {
        forms.push(part_form(layouts, con, part))?;
    }
    Ok(ConForm {
        name: con.name.name,
        place: con.name.place,
        parts: forms,
    })
}

/// A bitdata type as a plain description, over the layouts of the types of its fields.
pub(crate) fn bit_form(
    alloc: Global,
    declared: &Declared,
    layouts: &Layouts,
    of: &DeclaredType,
) -> Result<BitForm, Memory> {
    let mut cons = List::of(Vec::new(alloc));
    for con in constructors(declared, of) {
        let form = con_form(alloc, layouts, con)?;
        cons.push(form)?;
    }
    Ok(BitForm {
        width: of.number,
        cons,
    })
}
