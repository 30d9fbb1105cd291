ghost use Rattle.std.specs.Prelude.{◌≡◌, ◌<◌, ◌≤◌, ◌^◌, IsTrue, map};

use crate::{BitForm, BitLayout, ConForm, FieldPlace, PartForm};
use hb_base::{Code, Fault, List, Name, Place};
use hb_bits::Pattern;
use std::alloc::{AllocError, Global};
use std::process::Abort;
use std::test::Fail;

fn at(col: u32) -> Place {
    Place { line: 1, col }
}

fn con(name: u32, place: Place, parts: Vec<PartForm>) -> ConForm {
    ConForm {
        name: Name(name),
        place,
        parts: List::of(parts),
    }
}

fn form(width: Option<u64>, cons: Vec<ConForm>) -> BitForm {
    BitForm {
        width,
        cons: List::of(cons),
    }
}

/// A field of this width, whose type stands at this column.
fn field(name: u32, col: u32, width: u64) -> PartForm {
    PartForm::Field(Name(name), at(col), Some(width))
}

/// `Load [B01 | r :: Bit 6] | Any [v :: Bit 8]`
fn op(alloc: Global) -> Result<BitForm, AllocError> {
    let load = vec![in alloc; PartForm::Tag(2, 0b01), field(11, 1, 6)]?;
    let any = vec![in alloc; field(12, 1, 8)]?;
    let cons = vec![in alloc; con(1, at(1), load), con(2, at(2), any)]?;
    Ok(form(None, cons))
}

/// `Status [B000000 | idle :: Bool | ready :: Bool]`
fn status(alloc: Global) -> Result<BitForm, AllocError> {
    let parts = vec![in alloc; PartForm::Tag(6, 0), field(11, 1, 1), field(12, 2, 1)]?;
    let cons = vec![in alloc; con(1, at(1), parts)]?;
    Ok(form(None, cons))
}

/// `Go [B0000000 | f :: Bool] | Stop [X80]`
fn cmd(alloc: Global) -> Result<BitForm, AllocError> {
    let go = vec![in alloc; PartForm::Tag(7, 0), field(11, 1, 1)]?;
    let stop = vec![in alloc; PartForm::Tag(8, 0x80)]?;
    let cons = vec![in alloc; con(1, at(1), go), con(2, at(2), stop)]?;
    Ok(form(None, cons))
}

/// The refusal has this place.
fn assert_refused(rt: &impl Abort, alloc: Global, form: &BitForm, place: Place) {
    match BitLayout::of(alloc, form) {
        Err(Fault::Refused(refusal)) => {
            assert_eq!(rt; refusal.code, Code::E16);
            assert_eq!(rt; refusal.place, place);
            assert!(rt; refusal.detail.as_slice() == b"-".as_slice());
        },
        _ => assert!(rt; false),
    }
}

fn assert_fine(rt: &impl Abort, alloc: Global, form: &BitForm, width: u32) {
    match BitLayout::of(alloc, form) {
        Ok(layout) => assert_eq!(rt; layout.width, width),
        Err(_) => assert!(rt; false),
    }
}

fn laid_out(rt: &impl Abort, alloc: Global, form: &BitForm) -> BitLayout {
    match BitLayout::of(alloc, form) {
        Ok(layout) => layout,
        Err(_) => {
            assert!(rt; false);
            BitLayout {
                width: 0,
                cons: List::of(Vec::new(alloc)),
            }
        },
    }
}

fn byte(word: u64) -> Option<Pattern> {
    if word < 256 {
        Some(Pattern { width: 8, word })
    } else {
        None
    }
}

/// The pattern of this width whose bits spell the number.
fn bits(width: u32, word: u64) -> Pattern
    requires narrow { width ≤ 64 }
    requires in_range { word < 2 ^ width }
    ensures { result.width ≡ width }
{
    Pattern { width, word }
}

/// Whether the parts are as wide as the fields.
fn are_as_wide(fields: &[FieldPlace], parts: &[Pattern]) -> bool
    ensures { IsTrue result → map (λ part. part.width) parts.now ≡ map (λ field. field.width) fields.now }
{
    match (fields.split_first(), parts.split_first()) {
        (None, None) => true,
        (Some((field, lower)), Some((part, rest))) => {
            part.width == field.width && are_as_wide(lower, rest)
        },
        _ => false,
    }
}

/// What `build` gives; `None` where the layout has no such constructor or the parts do not fit its fields.
fn built(layout: &BitLayout, con: u32, parts: &[Pattern]) -> Option<Pattern> {
    let found = layout.cons.as_slice().get(con as usize)?;
    if are_as_wide(found.fields.as_slice(), parts) {
        Some(layout.build(con, parts))
    } else {
        None
    }
}

/// What `select` gives; `None` where the layout has no such field, or another width than the pattern.
fn selected(layout: &BitLayout, con: u32, field: u32, value: Pattern) -> Option<Pattern> {
    let found = layout.cons.as_slice().get(con as usize)?;
    let _place = found.fields.as_slice().get(field as usize)?;
    if value.width == layout.width {
        Some(layout.select(con, field, value))
    } else {
        None
    }
}

/// What `update` gives; `None` where the layout has no such field, or a width is another.
fn updated(
    layout: &BitLayout,
    con: u32,
    field: u32,
    value: Pattern,
    part: Pattern,
) -> Option<Pattern> {
    let found = layout.cons.as_slice().get(con as usize)?;
    let place = found.fields.as_slice().get(field as usize)?;
    if value.width == layout.width && part.width == place.width {
        Some(layout.update(con, field, value, part))
    } else {
        None
    }
}

#[test]
fn op_is_built_selected_and_updated(rt: HostRuntime) -> Result<(), Fail> {
    let layout = laid_out(&rt, rt.alloc(), &op(rt.alloc())?);
    let load = bits(8, 0b0110_0101);
    assert_eq!(rt; built(&layout, 0, &[bits(6, 0b10_0101)]), Some(load));
    assert_eq!(rt; selected(&layout, 0, 0, load), Some(bits(6, 0b10_0101)));
    assert_eq!(rt;
        updated(&layout, 0, 0, load, bits(6, 0b00_0011)),
        byte(0b0100_0011)
    );
    let any = bits(8, 0b1101_0010);
    assert_eq!(rt; built(&layout, 1, &[any]), Some(any));
    assert_eq!(rt; selected(&layout, 1, 0, any), Some(any));
    assert_eq!(rt; updated(&layout, 1, 0, any, load), Some(load));
    Ok(())
}

#[test]
fn status_is_built_selected_and_updated(rt: HostRuntime) -> Result<(), Fail> {
    let layout = laid_out(&rt, rt.alloc(), &status(rt.alloc())?);
    let (no, yes) = (bits(1, 0), bits(1, 1));
    let idle = bits(8, 0b0000_0010);
    assert_eq!(rt; built(&layout, 0, &[yes, no]), Some(idle));
    assert_eq!(rt; built(&layout, 0, &[no, yes]), byte(0b0000_0001));
    assert_eq!(rt; selected(&layout, 0, 0, idle), Some(yes));
    assert_eq!(rt; selected(&layout, 0, 1, idle), Some(no));
    assert_eq!(rt; updated(&layout, 0, 1, idle, yes), byte(0b0000_0011));
    assert_eq!(rt; updated(&layout, 0, 0, idle, no), byte(0));
    Ok(())
}

#[test]
fn the_first_field_has_the_most_significant_bits(rt: HostRuntime) -> Result<(), Fail> {
    let alloc = rt.alloc();
    let parts = vec![in alloc; field(11, 1, 3), PartForm::Tag(2, 0b10), field(12, 2, 11)]?;
    let cons = vec![in alloc; con(1, at(1), parts)]?;
    let layout = laid_out(&rt, alloc, &form(None, cons));
    let whole = bits(16, 0b1011_0000_0000_0011);
    assert_eq!(rt;
        built(&layout, 0, &[bits(3, 0b101), bits(11, 0b11)]),
        Some(whole)
    );
    assert_eq!(rt; selected(&layout, 0, 0, whole), Some(bits(3, 0b101)));
    assert_eq!(rt; selected(&layout, 0, 1, whole), Some(bits(11, 0b11)));
    assert_eq!(rt;
        updated(&layout, 0, 0, whole, bits(3, 0b010)),
        Some(bits(16, 0b0101_0000_0000_0011))
    );
    Ok(())
}

#[test]
fn op_has_confusion_and_no_junk(rt: HostRuntime) -> Result<(), Fail> {
    let layout = laid_out(&rt, rt.alloc(), &op(rt.alloc())?);
    assert_eq!(rt; layout.width, 8);
    assert_eq!(rt; layout.cons.len(), 2);
    if layout.cons.len() == 2 {
        assert_eq!(rt; layout.confusion(0, 1), byte(0b0100_0000));
    }
    assert_eq!(rt; layout.junk(rt.alloc())?, None);
    Ok(())
}

#[test]
fn status_has_junk(rt: HostRuntime) -> Result<(), Fail> {
    let layout = laid_out(&rt, rt.alloc(), &status(rt.alloc())?);
    assert_eq!(rt; layout.junk(rt.alloc())?, byte(0b0000_0100));
    Ok(())
}

#[test]
fn cmd_has_junk_and_no_confusion(rt: HostRuntime) -> Result<(), Fail> {
    let layout = laid_out(&rt, rt.alloc(), &cmd(rt.alloc())?);
    assert_eq!(rt; layout.cons.len(), 2);
    if layout.cons.len() == 2 {
        assert_eq!(rt; layout.confusion(0, 1), None);
    }
    assert_eq!(rt; layout.junk(rt.alloc())?, byte(0b0000_0010));
    Ok(())
}

#[test]
fn fields_stand_from_the_most_significant_bit_down(rt: HostRuntime) -> Result<(), Fail> {
    let layout = laid_out(&rt, rt.alloc(), &status(rt.alloc())?);
    assert_eq!(rt; layout.cons.len(), 1);
    for con in layout.cons.as_slice() {
        assert_eq!(rt; con.name, Name(1));
        assert_eq!(rt; con.fields.len(), 2);
        for (index, field) in con.fields.as_slice().iter().enumerate() {
            assert_eq!(rt; field.width, 1);
            assert_eq!(rt; field.at == 1, index == 0);
            assert_eq!(rt; field.name == Name(11), index == 0);
        }
    }
    Ok(())
}

/// One constructor at column 3 with one field of this width, whose type stands at column 5.
fn wide(alloc: Global, width: u64) -> Result<Vec<ConForm>, AllocError> {
    let parts = vec![in alloc; field(11, 5, width)]?;
    let cons = vec![in alloc; con(1, at(3), parts)]?;
    Ok(cons)
}

#[test]
fn widths_are_judged_at_the_first_place(rt: HostRuntime) -> Result<(), Fail> {
    let alloc = rt.alloc();
    assert_fine(&rt, alloc, &form(None, wide(alloc, 32)?), 32);
    assert_refused(&rt, alloc, &form(None, wide(alloc, 33)?), at(5));
    assert_refused(&rt, alloc, &form(None, wide(alloc, 0)?), at(5));
    assert_refused(
        &rt,
        alloc,
        &form(None, wide(alloc, 0xFFFF_FFFF_FFFF_FFFF)?),
        at(5),
    );
    assert_fine(&rt, alloc, &form(Some(32), wide(alloc, 32)?), 32);
    assert_refused(&rt, alloc, &form(Some(31), wide(alloc, 32)?), at(3));
    let halves = vec![in alloc; field(11, 5, 32), field(12, 6, 1)]?;
    let cons = vec![in alloc; con(1, at(3), halves)]?;
    assert_refused(&rt, alloc, &form(None, cons), at(3));
    let none = vec![in alloc; PartForm::Field(Name(11), at(7), None)]?;
    let cons = vec![in alloc; con(1, at(3), none), con(2, at(9), Vec::new(alloc))]?;
    assert_refused(&rt, alloc, &form(None, cons), at(7));
    Ok(())
}

#[test]
fn constructors_have_one_width(rt: HostRuntime) -> Result<(), Fail> {
    let alloc = rt.alloc();
    let first = vec![in alloc; PartForm::Tag(4, 0)]?;
    let second = vec![in alloc; PartForm::Tag(5, 0)]?;
    let cons = vec![in alloc; con(1, at(1), first), con(2, at(2), second)]?;
    assert_refused(&rt, alloc, &form(None, cons), at(2));
    let first = vec![in alloc; PartForm::Tag(4, 0)]?;
    let second = vec![in alloc; PartForm::Tag(5, 0)]?;
    let cons = vec![in alloc; con(1, at(1), first), con(2, at(2), second)]?;
    assert_refused(&rt, alloc, &form(Some(5), cons), at(1));
    Ok(())
}
