use crate::facts::{declared, referred};
use crate::table::{Class, ClassTable, DeclaredType, Field};
use hb_base::Memory;
use hb_types::Atom;
use hb_unique::{Shape, UniqueTypes, shape_of};

const REF: u32 = 8;

/// The type of a field, by its place in the class table.
fn field(fields: &[Field], name: u32) -> Option<usize> {
    let found = fields.iter().find(|field| field.name == name)?;
    Some(found.of)
}

/// The declared type that a type is, if it is one.
fn declared_at<'a>(
    table: &'a ClassTable,
    types: &UniqueTypes,
    place: usize,
) -> Option<&'a DeclaredType> {
    match shape_of(types, place) {
        Shape::Alone(con) => declared(table, con),
        _ => None,
    }
}

/// The type of a field of a bitdata type with one constructor.
fn bit_field(table: &ClassTable, types: &UniqueTypes, place: usize, name: u32) -> Option<usize> {
    let of = declared_at(table, types, place)?;
    if of.is_struct {
        return None;
    }
    field(of.fields.as_slice(), name)
}

/// The type of a field of the struct to which a type refers.
fn struct_field(table: &ClassTable, types: &UniqueTypes, place: usize, name: u32) -> Option<usize> {
    let of = declared_at(table, types, referred(types, place)?)?;
    if !of.is_struct {
        return None;
    }
    field(of.fields.as_slice(), name)
}

/// The type of a field of a bitdata value with one constructor.
fn put_bit_field(
    table: &ClassTable,
    types: &mut UniqueTypes,
    place: usize,
    name: u32,
) -> Result<Option<usize>, Memory> {
    match bit_field(table, types, place, name) {
        Some(of) => Ok(Some(types.copy(&table.types, of, &[])?)),
        None => Ok(None),
    }
}

/// The reference to a field, of a reference to a struct.
fn put_struct_field(
    table: &ClassTable,
    types: &mut UniqueTypes,
    place: usize,
    name: u32,
) -> Result<Option<usize>, Memory> {
    match struct_field(table, types, place, name) {
        Some(of) => {
            let area = types.copy(&table.types, of, &[])?;
            let con = types.leaf(Atom::Con(REF))?;
            Ok(Some(types.apply(con, area)?))
        }
        None => Ok(None),
    }
}

/// The type that a selection or an update forces from the type of its value: for a selection the field of a bitdata
/// type with one constructor, or the reference to the field of a struct to which the value refers; for an update the
/// former alone. Nothing where the type is none of these, where it has no such field, and for other predicates.
pub fn forced_by_selection(
    table: &ClassTable,
    types: &mut UniqueTypes,
    class: Class,
    value: usize,
) -> Result<Option<usize>, Memory> {
    match class {
        Class::Selection(name) => match put_bit_field(table, types, value, name)? {
            Some(of) => Ok(Some(of)),
            None => put_struct_field(table, types, value, name),
        },
        Class::Update(name) => put_bit_field(table, types, value, name),
        _ => Ok(None),
    }
}

/// Whether a predicate is a selection or an update that a value of its first type has, with its second type.
pub fn is_selected(
    table: &ClassTable,
    types: &mut UniqueTypes,
    class: Class,
    args: &[usize],
) -> Result<bool, Memory> {
    match args {
        [value, of] => match forced_by_selection(table, types, class, *value)? {
            Some(forced) => Ok(types.resolved(forced) == types.resolved(*of)),
            None => Ok(false),
        },
        _ => Ok(false),
    }
}
