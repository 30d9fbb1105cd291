//! The addresses of areas, one after another.
ghost use Rattle.std.specs.Prelude.{◌≡◌, ◌<◌, ◌^◌, IfOk, length};
ghost use Rattle.hb_area.specs.Placing.{next_address, is_alignment as alignment, IsPlacing};

use crate::form::Extent;
use hb_base::{List, Memory};
use std::alloc::Global;

/// The address of the first area.
pub const AREAS_START: u32 = 0x2000_0000;

/// The address above which no area may end.
pub const AREAS_END: u32 = 0x2100_0000;

/// Whether a number may be written as an alignment: a power of two up to 65,536.
pub fn is_alignment(number: u64) -> bool
    ensures { result ≡ alignment number }
{
    matches!(
        number,
        1 | 2
            | 4
            | 8
            | 16
            | 32
            | 64
            | 128
            | 256
            | 512
            | 1024
            | 2048
            | 4096
            | 8192
            | 16384
            | 32768
            | 65536
    )
}

/// The next address from this one on that is a multiple of the alignment.
pub fn aligned_up(address: u64, align: u32) -> u64
    requires positive { 0 < align }
    requires low { address < 2 ^ 62 }
    ensures { result ≡ next_address address align }
{
    let align = align as u64;
    (address + (align - 1)) / align * align
}

/// The addresses of areas, or the first area that ends above `AREAS_END`, by its number.
#[derive(Debug, Drop)]
pub enum Placing {
    Placed(List<u32>),
    Over(u32),
}

/// Places areas one after another, each at the next address that its alignment divides.
pub fn place_areas(alloc: Global, areas: &[Extent]) -> Result<Placing, Memory>
    requires { length areas.now < 2 ^ 32 }
    ensures { IfOk result (IsPlacing areas.now) }
{
    let mut addresses = List::of(Vec::new(alloc));
    let mut number = 0;
    let mut at = AREAS_START as u64;
    let mut left = areas;
    while let Some((area, rest)) = left.split_first() {
        let address = aligned_up(at, area.align);
        at = address + area.size;
        if at > AREAS_END as u64 {
            return Ok(Placing::Over(number));
        }
        addresses.push(address as u32)?;
        number += 1;
        left = rest;
    }
    Ok(Placing::Placed(addresses))
}
