ghost use Rattle.std.specs.Prelude.{◌≡◌, ◌<◌, ◌≤◌, ◌^◌, ◌+◌, ◌++◌, min, Some, IfSome, IfOk, OnOk};
ghost use Rattle.hb_area.specs.Sizes.{has_broken as broken_of};
ghost use Rattle.hb_area.specs.Structs.{offset_after, form_fault as fault_of, is_off as off, part_fault as fault_of_part, fields_fault as fault_of_fields, end_from, is_wrong_size as wrong_size, struct_fault as fault_of_struct, greatest_align, part_spots, spots_from, as_list};
ghost use Rattle.hb_area.specs.Sizes.{align_of};
ghost use Rattle.std.specs.Option.{option_map};

use crate::form::{AreaForm, Extent};
use crate::measure::{measure_area, struct_at};
use hb_base::{List, Memory, Name, Place};
use std::alloc::Global;

/// A size from which on a type of memory is too large.
const LARGE: u64 = 0x1_0000_0000;

/// What is wrong with the layout of an area or a struct.
#[derive(Clone, Copy, Debug, PartialEq, Eq)]
pub enum AreaFault {
    Align,
    Size,
    Stride,
    NotStored,
    Init,
}

/// A part of a struct: bytes without a name, or a field, at its place.
#[derive(Debug, Drop)]
pub enum StructPart {
    Pad(u64),
    Field(Name, Place, AreaForm),
}

/// A struct, at the place of its word `struct`, with the size that it is said to have, if there is one.
#[derive(Debug, Drop)]
pub struct StructForm {
    pub name: Name,
    pub place: Place,
    pub size: Option<u64>,
    pub parts: List<StructPart>,
}

/// Where a field of a struct lies.
#[derive(Clone, Copy, Debug, PartialEq, Eq)]
pub struct FieldSpot {
    pub owner: Name,
    pub name: Name,
    pub offset: u32,
    pub size: u32,
}

/// Whether a cell in it has a type that is not stored.
fn has_broken(form: &AreaForm) -> bool
    ensures { result ≡ broken_of form.now }
{
    match form {
        AreaForm::Cell(_) => false,
        AreaForm::Broken => true,
        AreaForm::Array(_, part) => has_broken(part),
        AreaForm::Struct(_) => false,
    }
}

/// What is wrong with a field of this type at this offset, `None` where the offset is not known. Where several things are, the
/// first in the order of `AreaFault` counts.
fn form_fault(structs: &[Option<Extent>], at: Option<u64>, form: &AreaForm) -> Option<AreaFault>
    ensures { result ≡ fault_of structs.now at form.now }
{
    match measure_area(form, structs) {
        Some(measure) => {
            if is_off(at, measure.align) {
                Some(AreaFault::Align)
            } else if measure.is_large {
                Some(AreaFault::Size)
            } else if measure.is_uneven {
                Some(AreaFault::Stride)
            } else {
                None
            }
        },
        None => {
            if has_broken(form) {
                Some(AreaFault::NotStored)
            } else {
                None
            }
        },
    }
}

/// Whether an offset is known and below 2^32, and no multiple of the alignment.
fn is_off(at: Option<u64>, align: u32) -> bool
    requires { 0 < align }
    ensures { result ≡ off at align }
{
    match at {
        Some(at) => at < LARGE && at % align as u64 != 0,
        None => false,
    }
}

/// The offset after so many bytes, where 2^32 stands for every offset from there on.
fn moved(at: u64, bytes: u64) -> u64
    ensures { result ≡ min (at + bytes) (2 ^ 32) }
{
    match at.checked_add(bytes) {
        Some(sum) => sum.min(LARGE),
        None => LARGE,
    }
}

/// The offset after a part, `None` where it is not known.
fn part_end(structs: &[Option<Extent>], at: Option<u64>, part: &StructPart) -> Option<u64>
    ensures capped { IfSome result (λ end. end ≤ 2 ^ 32) }
    ensures end { result ≡ offset_after structs.now at part.now }
{
    let Some(at) = at else {
        return None;
    };
    match part {
        StructPart::Pad(bytes) => Some(moved(at, *bytes)),
        StructPart::Field(_, _, form) => match measure_area(form, structs) {
            Some(measure) => Some(moved(at, measure.size)),
            None => None,
        },
    }
}

/// What is wrong with a part at this offset, and its place.
fn part_fault(
    structs: &[Option<Extent>],
    at: Option<u64>,
    part: &StructPart,
) -> Option<(Place, AreaFault)>
    ensures { result ≡ fault_of_part structs.now at part.now }
{
    let StructPart::Field(_, place, form) = part else {
        return None;
    };
    match form_fault(structs, at, form) {
        Some(fault) => Some((*place, fault)),
        None => None,
    }
}

/// The first field at which something is wrong, and its place.
fn fields_fault(structs: &[Option<Extent>], parts: &[StructPart]) -> Option<(Place, AreaFault)>
    ensures { result ≡ fault_of_fields structs.now (Some 0) parts.now }
{
    let mut at = Some(0);
    let mut left = parts;
    while let Some((part, rest)) = left.split_first() {
        let fault = part_fault(structs, at, part);
        if fault.is_some() {
            return fault;
        }
        at = part_end(structs, at, part);
        left = rest;
    }
    None
}

/// The sum of the sizes of parts, where 2^32 stands for every sum from there on; `None` where one is not known.
fn parts_end(structs: &[Option<Extent>], parts: &[StructPart]) -> Option<u64>
    ensures capped { IfSome result (λ end. end ≤ 2 ^ 32) }
    ensures end { result ≡ end_from structs.now (Some 0) parts.now }
{
    let mut at = Some(0);
    let mut left = parts;
    while let Some((part, rest)) = left.split_first() {
        at = part_end(structs, at, part);
        left = rest;
    }
    at
}

/// Whether a size that is known is too large, or not the one that is written.
fn is_wrong_size(written: Option<u64>, size: Option<u64>) -> bool
    ensures { result ≡ wrong_size written size }
{
    match (written, size) {
        (_, None) => false,
        (None, Some(size)) => size >= LARGE,
        (Some(written), Some(size)) => size >= LARGE || written != size,
    }
}

/// The first thing that is wrong with a struct, and its place: its size, or else a field.
pub fn struct_fault(structs: &[Option<Extent>], form: &StructForm) -> Option<(Place, AreaFault)>
    ensures { result ≡ fault_of_struct structs.now form.now }
{
    if is_wrong_size(form.size, parts_end(structs, form.parts.as_slice())) {
        return Some((form.place, AreaFault::Size));
    }
    fields_fault(structs, form.parts.as_slice())
}

/// The alignment of an area type.
fn area_align(structs: &[Option<Extent>], form: &AreaForm) -> u32
    ensures align { result ≡ align_of structs.now form.now }
    ensures positive { 0 < result }
{
    match form {
        AreaForm::Cell(cell) => cell.bytes as u32,
        AreaForm::Broken => 1,
        AreaForm::Array(_, part) => area_align(structs, part),
        AreaForm::Struct(number) => match struct_at(structs, *number) {
            Some(extent) => extent.align,
            None => 1,
        },
    }
}

/// The greatest alignment of a field, at least 1.
fn parts_align(structs: &[Option<Extent>], parts: &[StructPart]) -> u32
    ensures align { result ≡ greatest_align structs.now 1 parts.now }
    ensures positive { 0 < result }
{
    let mut align = 1;
    let mut left = parts;
    while let Some((part, rest)) = left.split_first() {
        if let StructPart::Field(_, _, form) = part {
            align = area_align(structs, form).max(align);
        }
        left = rest;
    }
    align
}

/// The bytes and the alignment of a struct, where all its fields have a known size.
pub fn struct_extent(structs: &[Option<Extent>], form: &StructForm) -> Option<Extent>
    ensures size { option_map (λ extent. extent.size) result ≡ end_from structs.now (Some 0) form.now.parts }
    ensures align { IfSome result (λ extent. extent.align ≡ greatest_align structs.now 1 form.now.parts) }
{
    match parts_end(structs, form.parts.as_slice()) {
        Some(size) => Some(Extent {
            size,
            align: parts_align(structs, form.parts.as_slice()),
        }),
        None => None,
    }
}

/// Puts where the field of a part lies, if it has one that ends below 2^32.
fn push_spot(
    fields: &mut List<FieldSpot>,
    owner: Name,
    structs: &[Option<Extent>],
    at: Option<u64>,
    part: &StructPart,
) -> Result<(), Memory>
    ensures { OnOk result (fields.new ≡ fields.old ++ part_spots owner structs.now at part.now) }
{
    if let Some(spot) = spot_of(owner, structs, at, part) {
        fields.push(spot)?;
    }
    Ok(())
}

/// Where the field of a part lies, if it has one that ends below 2^32.
fn spot_of(
    owner: Name,
    structs: &[Option<Extent>],
    at: Option<u64>,
    part: &StructPart,
) -> Option<FieldSpot>
    ensures { as_list result ≡ part_spots owner structs.now at part.now }
{
    let StructPart::Field(name, _, form) = part else {
        return None;
    };
    let Some(at) = at else {
        return None;
    };
    let Some(measure) = measure_area(form, structs) else {
        return None;
    };
    if moved(at, measure.size) < LARGE {
        Some(FieldSpot {
            owner,
            name: *name,
            offset: at as u32,
            size: measure.size as u32,
        })
    } else {
        None
    }
}

/// Where the fields of a struct lie, of those that end below 2^32, in text order.
pub fn field_spots(
    alloc: Global,
    structs: &[Option<Extent>],
    form: &StructForm,
) -> Result<List<FieldSpot>, Memory>
    ensures { IfOk result (λ spots. spots ≡ spots_from form.now.name structs.now (Some 0) form.now.parts) }
{
    let mut fields = List::of(Vec::new(alloc));
    let mut at = Some(0);
    let mut left = form.parts.as_slice();
    while let Some((part, rest)) = left.split_first() {
        push_spot(&mut fields, form.name, structs, at, part)?;
        at = part_end(structs, at, part);
        left = rest;
    }
    Ok(fields)
}
