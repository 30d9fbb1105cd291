ghost use Rattle.hb_area.specs.Sizes.{is_known, size_of, align_of, is_large as large_of, is_uneven as uneven_of, struct_at as extent_at};
ghost use Rattle.std.specs.Prelude.{is_some, IfSome, false, ◌≡◌, ◌^◌, ◌≤◌, ◌<◌, ◌*◌, ◌%◌, ◌||◌, ◌==◌, nat_le, not, min};

use crate::form::{AreaForm, Extent};

/// A size from which on a type of memory is too large.
const LARGE: u64 = 0x1_0000_0000;

/// The bytes of a type of memory, where 2^32 stands for every size from there on, and its alignment. `is_large` tells
/// that it is too large, other than by being a struct that is, and `is_uneven` that it has an array whose elements have a
/// size that is no multiple of their alignment.
#[derive(Clone, Copy, Debug, PartialEq, Eq)]
pub struct Measure {
    pub size: u64,
    pub align: u32,
    pub is_large: bool,
    pub is_uneven: bool,
}

/// The product, where 2^32 stands for every number from there on.
fn times(count: u64, size: u64) -> u64
    requires { size ≤ 2 ^ 32 }
    ensures { result ≡ min (count * size) (2 ^ 32) }
{
    match count.checked_mul(size) {
        Some(product) => product.min(LARGE),
        None => LARGE,
    }
}

/// The measure of so many elements.
fn measure_array(count: u64, part: Measure) -> Measure
    requires capped { part.size ≤ 2 ^ 32 }
    requires positive { 0 < part.align }
    ensures size { result.size ≡ min (count * part.size) (2 ^ 32) }
    ensures align { result.align ≡ part.align }
    ensures large { result.is_large ≡ (part.is_large || (nat_le (2 ^ 32) part.size || nat_le (2 ^ 32) (count * part.size))) }
    ensures uneven { result.is_uneven ≡ (part.is_uneven || not (part.size % part.align == 0)) }
{
    let size = times(count, part.size);
    Measure {
        size,
        align: part.align,
        is_large: part.is_large || part.size >= LARGE || size >= LARGE,
        is_uneven: part.is_uneven || part.size % part.align as u64 != 0,
    }
}

/// The measure of an area type over the structs that are laid out already, or `None` where a cell in it has a type that is
/// not stored.
pub fn measure_area(form: &AreaForm, structs: &[Option<Extent>]) -> Option<Measure>
    ensures known { is_some result ≡ is_known structs.now form.now }
    ensures size { IfSome result (λ m. m.size ≡ min (size_of structs.now form.now) (2 ^ 32)) }
    ensures align { IfSome result (λ m. m.align ≡ align_of structs.now form.now) }
    ensures positive { IfSome result (λ m. 0 < m.align) }
    ensures large { IfSome result (λ m. m.is_large ≡ large_of structs.now form.now) }
    ensures uneven { IfSome result (λ m. m.is_large ≡ false → m.is_uneven ≡ uneven_of structs.now form.now) }
{
    match form {
        AreaForm::Cell(cell) => Some(Measure {
            size: cell.bytes as u64,
            align: cell.bytes as u32,
            is_large: false,
            is_uneven: false,
        }),
        AreaForm::Broken => None,
        AreaForm::Array(count, part) => match measure_area(part, structs) {
            Some(part) => Some(measure_array(*count, part)),
            None => None,
        },
        AreaForm::Struct(number) => match struct_at(structs, *number) {
            Some(extent) => Some(Measure {
                size: extent.size,
                align: extent.align,
                is_large: false,
                is_uneven: false,
            }),
            None => None,
        },
    }
}

/// The extent of a struct by its number, if it is known.
pub(crate) fn struct_at(structs: &[Option<Extent>], number: u32) -> Option<Extent>
    ensures { result ≡ extent_at structs.now number }
{
    match structs.get(number as usize) {
        Some(extent) => *extent,
        None => None,
    }
}
