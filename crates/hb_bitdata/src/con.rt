ghost use Rattle.std.specs.Prelude.{◌≡◌, IsTrue, map};
ghost use Rattle.hb_bits.specs.OfCube.{members_of};
ghost use Rattle.hb_bitdata.specs.Places.{are_below, held, is_free};

use crate::place::FieldPlace;
use hb_base::{List, Name};
use hb_bits::Cube;

/// The layout of a constructor: the patterns that it has, and its fields from the most significant bit down. Each field
/// lies below the one before it, and the fields hold just the bits that the cube leaves free.
#[derive(Debug, Drop)]
pub struct ConLayout {
    pub name: Name,
    pub cube: Cube,
    pub fields: List<FieldPlace>,
    pub ghost apart: { IsTrue (are_below cube.width fields) },
    pub ghost exact: { map is_free (members_of cube) ≡ held cube.width fields },
}
