ghost use Rattle.std.specs.Prelude.{◌≤◌, IsTrue};
ghost use Rattle.std.specs.List.{list_all};
ghost use Rattle.hb_bitdata.specs.Cubes.{has_width};

use crate::con::ConLayout;
use hb_base::List;

/// The layout of a bitdata type: its width, and its constructors as they are declared.
#[derive(Debug, Drop)]
pub struct BitLayout {
    pub width: u32,
    pub cons: List<ConLayout>,
    pub ghost narrow: { width ≤ 64 },
    pub ghost same_width: { IsTrue (list_all (has_width width) cons) },
}
