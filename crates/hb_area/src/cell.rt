ghost use Rattle.std.specs.Prelude.{◌≡◌, ◌<◌, slice_index};
ghost use Rattle.hb_area.specs.Cells.{bytes_of, encoded};

use crate::form::CellForm;

/// The byte of a cell at an index, where the cell holds this value.
pub fn cell_byte(form: CellForm, value: u32, index: u8) -> u8
    requires { index < form.bytes }
    ensures { result ≡ slice_index (encoded form value) index }
{
    let place = if form.big {
        form.bytes - 1 - index
    } else {
        index
    };
    byte_at(value, place)
}

/// A byte of a number, counted from the least one.
fn byte_at(value: u32, place: u8) -> u8
    requires { place < 4 }
    ensures { result ≡ slice_index (bytes_of 4 value) place }
{
    match place {
        0 => (value % 256) as u8,
        1 => (value / 256 % 256) as u8,
        2 => (value / 256 / 256 % 256) as u8,
        _ => (value / 256 / 256 / 256 % 256) as u8,
    }
}
