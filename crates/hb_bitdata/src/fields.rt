//! How values are built of their fields, and how fields are selected and updated. Nothing here takes memory.
ghost use Rattle.std.specs.Prelude.{◌≡◌, ◌+◌, ◌<◌, ◌≤◌, Some, IsSome, IfSome, length, map, slice_get};
ghost use Rattle.std.specs.Option.{option_map};
ghost use Rattle.hb_bits.specs.Bits.{cut_at, digits, place_at};
ghost use Rattle.hb_bits.specs.OfPattern.{bits_of};
ghost use Rattle.hb_bitdata.specs.Fields.{placed, tags};

use crate::con::ConLayout;
use crate::layout::BitLayout;
use crate::place::FieldPlace;
use hb_bits::{Cube, Pattern};

/// A constructor by its number.
fn con_of(cons: &[ConLayout], con: u32) -> Option<&ConLayout>
    ensures { option_map (λ found. found.now) result ≡ slice_get cons.now con }
{
    cons.get(con as usize)
}

/// A field by its number.
fn field_of(fields: &[FieldPlace], field: u32) -> Option<FieldPlace>
    ensures { result ≡ slice_get fields.now field }
{
    fields.get(field as usize).copied()
}

/// The tag bits of a cube, with zeros between them.
fn tag_bits(cube: Cube) -> Pattern
    ensures width { result.width ≡ cube.width }
    ensures bits { bits_of result ≡ digits cube.width cube.value }
{
    Pattern {
        width: cube.width,
        word: cube.value,
    }
}

impl ConLayout {
    /// The pattern of the constructor whose fields, from the most significant bit down, have these parts.
    fn filled(&self, parts: &[Pattern]) -> Pattern
        requires { map (λ part. part.width) parts.now ≡ map (λ field. field.width) self.now.fields }
        ensures width { result.width ≡ self.now.cube.width }
        ensures bits { bits_of result ≡ placed self.now.fields parts.now (tags self.now) }
    {
        let mut built = tag_bits(self.cube);
        let mut places = self.fields.as_slice();
        let mut left = parts;
        while let Some((field, fields)) = places.split_first() {
            if let Some((part, rest)) = left.split_first() {
                built = built.place(field.at, *part);
                left = rest;
            }
            places = fields;
        }
        built
    }
}

impl BitLayout {
    ghost use Rattle.hb_bitdata.specs.Fields.{field_at};

    /// The place of a field, by the numbers of its constructor and of the field.
    fn place(&self, con: u32, field: u32) -> FieldPlace
        requires { IsSome (field_at self.now con field) }
        ensures place { field_at self.now con field ≡ Some result }
        ensures within { result.at + result.width ≤ self.now.width }
    {
        match con_of(self.cons.as_slice(), con) {
            Some(con) => match field_of(con.fields.as_slice(), field) {
                Some(place) => place,
                None => unreachable!(),
            },
            None => unreachable!(),
        }
    }

    /// The pattern of a constructor, by its number, whose fields, from the most significant bit down, have these parts.
    pub fn build(&self, con: u32, parts: &[Pattern]) -> Pattern
        requires con { con < length self.now.cons }
        requires widths { IfSome (slice_get self.now.cons con) (λ c. map (λ part. part.width) parts.now ≡ map (λ field. field.width) c.fields) }
        ensures width { result.width ≡ self.now.width }
        ensures bits { IfSome (slice_get self.now.cons con) (λ c. bits_of result ≡ placed c.fields parts.now (tags c)) }
    {
        match self.cons.as_slice().get(con as usize) {
            Some(con) => con.filled(parts),
            None => unreachable!(),
        }
    }

    /// The bits of a field, by the numbers of its constructor and of the field, in a pattern.
    pub fn select(&self, con: u32, field: u32, value: Pattern) -> Pattern
        requires field { IsSome (field_at self.now con field) }
        requires width { value.width ≡ self.now.width }
        ensures width { IfSome (field_at self.now con field) (λ f. result.width ≡ f.width) }
        ensures bits { IfSome (field_at self.now con field) (λ f. bits_of result ≡ cut_at f.at f.width (bits_of value)) }
    {
        let place = self.place(con, field);
        value.cut(place.at, place.width)
    }

    /// The pattern with these bits in the place of a field's.
    pub fn update(&self, con: u32, field: u32, value: Pattern, part: Pattern) -> Pattern
        requires field { IsSome (field_at self.now con field) }
        requires width { value.width ≡ self.now.width }
        requires part { IfSome (field_at self.now con field) (λ f. part.width ≡ f.width) }
        ensures width { result.width ≡ self.now.width }
        ensures bits { IfSome (field_at self.now con field) (λ f. bits_of result ≡ place_at f.at (bits_of part) (bits_of value)) }
    {
        let place = self.place(con, field);
        value.place(place.at, part)
    }
}
