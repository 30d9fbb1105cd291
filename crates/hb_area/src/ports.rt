ghost use Rattle.std.specs.Prelude.{◌≡◌, ◌<◌, ◌^◌};
ghost use Rattle.hb_area.specs.Ports.{overlaps as overlap_of, is_free as free_of, fault_of};

use crate::port_form::PortForm;

/// Where ports stand from.
const PORTS_START: u128 = 0x8000_0000;

/// Where they end.
const PORTS_END: u128 = 0x1_0000_0000;

/// The bytes of the longest name of a port.
const NAME_BYTES: usize = 64;

/// The most ports of a program.
const PORTS: usize = 256;

/// What is wrong with a port.
#[derive(Clone, Copy, Debug, PartialEq, Eq)]
pub enum PortFault {
    Place,
    Align,
    Overlap,
    NotStored,
    Name,
    Count,
}

/// A port that stands: its bytes, and its first address.
#[derive(Clone, Copy, Debug, PartialEq, Eq)]
pub struct PortSpot {
    pub width: u8,
    pub address: u32,
}

/// Whether a byte belongs to both.
fn overlaps(earlier: PortSpot, width: u8, address: u128) -> bool
    requires { address < 2 ^ 33 }
    ensures { result ≡ overlap_of earlier width address }
{
    let start = earlier.address as u128;
    address < start + earlier.width as u128 && start < address + width as u128
}

/// Whether no earlier port has a byte of these, in whichever direction it goes.
fn is_free(earlier: &[PortSpot], width: u8, address: u128) -> bool
    requires { address < 2 ^ 33 }
    ensures { result ≡ free_of earlier.now width address }
{
    let mut left = earlier;
    while let Some((port, rest)) = left.split_first() {
        if overlaps(*port, width, address) {
            return false;
        }
        left = rest;
    }
    true
}

/// The first thing that is wrong with a port after these, in the order of `PortFault`. Where its type is none that a port may
/// have, no alignment and no overlap is looked at.
pub fn port_fault(earlier: &[PortSpot], form: PortForm) -> Option<PortFault>
    ensures { result ≡ fault_of earlier.now form }
{
    let last = match form.width {
        Some(width) => width as u128,
        None => 1,
    };
    if form.address < PORTS_START || form.address > PORTS_END - last {
        return Some(PortFault::Place);
    }
    if let Some(width) = form.width {
        if form.address % width as u128 != 0 {
            return Some(PortFault::Align);
        }
        if !is_free(earlier, width, form.address) {
            return Some(PortFault::Overlap);
        }
    }
    if form.width.is_none() {
        return Some(PortFault::NotStored);
    }
    if form.name_bytes > NAME_BYTES {
        return Some(PortFault::Name);
    }
    if earlier.len() >= PORTS {
        return Some(PortFault::Count);
    }
    None
}
