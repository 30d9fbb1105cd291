//! How the parts of constructors are laid out.
ghost use Rattle.std.specs.Prelude.{◌≡◌, ◌≤◌, ◌++◌, IsTrue, IfOk, IfErr, OnOk, None, Some, map, codes};
ghost use Rattle.std.specs.List.{list_all};
ghost use Rattle.hb_base.specs.Faults.{IfRefused};
ghost use Rattle.hb_bitdata.specs.Widths.{part_width as width_of_part, parts_width as width_of_parts, first_fault as fault_of};
ghost use Rattle.hb_bitdata.specs.Layouts.{part_members, place_of, width_of, laid, shown, AreWide, IsLayout};
ghost use Rattle.hb_bitdata.specs.Cubes.{has_width};
ghost use Rattle.hb_bits.specs.Bits.{digits};
ghost use Rattle.hb_bits.specs.OfCube.{members_of};
ghost use Rattle.hb_bits.specs.OfPattern.{bits_of};

use crate::con::ConLayout;
use crate::form::{BitForm, ConForm, PartForm};
use crate::layout::BitLayout;
use crate::place::FieldPlace;
use crate::widths::{first_fault, part_width, parts_width};
use hb_base::{Code, Fault, List, Memory, refused};
use hb_bits::{Cube, Pattern};
use std::alloc::Global;

/// The last 64 bits of a number.
const LOW: u128 = 0xFFFF_FFFF_FFFF_FFFF;

/// The last bits of a number.
fn last_bits(width: u32, number: u128) -> Pattern
    requires { width ≤ 64 }
    ensures width { result.width ≡ width }
    ensures bits { bits_of result ≡ digits width number }
{
    let whole = Pattern {
        width: 64,
        word: (number & LOW) as u64,
    };
    whole.cut(0, width)
}

/// The cube of a part: the bits of a tag are fixed, those of a field are free.
fn part_cube(part: &PartForm) -> Cube
    requires { width_of_part part.now ≤ 64 }
    ensures width { result.width ≡ width_of_part part.now }
    ensures members { members_of result ≡ part_members part.now }
{
    match part {
        PartForm::Tag(width, number) => Cube::fixed(last_bits(*width, *number)),
        PartForm::Field(_, _, Some(width)) => Cube::free(*width as u32),
        PartForm::Field(_, _, None) => Cube::free(0),
    }
}

/// Puts the place of a part that is a field, with so many bits after it.
fn push_place(fields: &mut List<FieldPlace>, part: &PartForm, at: u32) -> Result<(), Memory>
    requires { width_of_part part.now ≤ 64 }
    ensures { OnOk result (fields.new ≡ fields.old ++ place_of part.now at) }
{
    if let PartForm::Field(name, _, width) = part {
        fields.push(FieldPlace {
            name: *name,
            at,
            width: width.unwrap_or(0) as u32,
        })?;
    }
    Ok(())
}

/// Lays out a constructor.
fn lay_con(alloc: Global, con: &ConForm) -> Result<ConLayout, Memory>
    requires { width_of_parts con.now.parts ≤ 64 }
    ensures laid { IfOk result (λ layout. shown layout ≡ laid con.now) }
    ensures width { IfOk result (λ layout. layout.cube.width ≡ width_of_parts con.now.parts) }
{
    let mut cube = Cube::free(0);
    let mut fields = List::of(Vec::new(alloc));
    let mut below = parts_width(con.parts.as_slice()) as u32;
    let mut left = con.parts.as_slice();
    while let Some((part, rest)) = left.split_first() {
        below -= part_width(part) as u32;
        cube = cube.join(part_cube(part));
        push_place(&mut fields, part, below)?;
        left = rest;
    }
    Ok(ConLayout {
        name: con.name,
        cube,
        fields,
    })
}

/// Lays out constructors of one width.
fn lay_cons(alloc: Global, width: u32, cons: &[ConForm]) -> Result<List<ConLayout>, Memory>
    requires narrow { width ≤ 64 }
    requires same { AreWide width cons.now }
    ensures cons { IfOk result (λ layouts. map shown layouts ≡ map laid cons.now) }
    ensures width { IfOk result (λ layouts. IsTrue (list_all (has_width width) layouts)) }
{
    let mut layouts = List::of(Vec::new(alloc));
    let mut left = cons;
    while let Some((con, rest)) = left.split_first() {
        let layout = lay_con(alloc, con)?;
        layouts.push(layout)?;
        left = rest;
    }
    Ok(layouts)
}

/// The width of the first constructor.
fn first_con_width(cons: &[ConForm]) -> u32
    requires { width_of cons.now ≤ 64 }
    ensures { result ≡ width_of cons.now }
{
    match cons.first() {
        Some(con) => parts_width(con.parts.as_slice()) as u32,
        None => 0,
    }
}

impl BitLayout {
    /// Lays out a bitdata type: the parts of a constructor stand from the most significant bit down. Refuses it at the
    /// first place where a field has no width, or one out of range, or where the width of a constructor whose fields are
    /// fine is out of range, or is not the declared one, or, where none is declared, not that of the first such
    /// constructor.
    pub fn of(alloc: Global, form: &BitForm) -> Result<BitLayout, Fault>
        ensures fine { IfOk result (λ layout. fault_of form.now ≡ None) }
        ensures laid { IfOk result (λ layout. IsLayout form.now layout) }
        ensures refused { IfErr result (IfRefused (λ refusal. refusal.code ≡ Code.E16)) }
        ensures place { IfErr result (IfRefused (λ refusal. fault_of form.now ≡ Some refusal.place)) }
        ensures detail { IfErr result (IfRefused (λ refusal. refusal.detail ≡ codes "-")) }
    {
        if let Some(place) = first_fault(form) {
            return Err(refused(alloc, Code::E16, place, b"-"));
        }
        let width = first_con_width(form.cons.as_slice());
        match lay_cons(alloc, width, form.cons.as_slice()) {
            Ok(cons) => Ok(BitLayout { width, cons }),
            Err(Memory) => Err(Fault::Memory),
        }
    }
}
