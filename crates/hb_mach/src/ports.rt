ghost use Rattle.std.specs.Prelude.{◌≡◌, ◌<◌, ◌≤◌, length, position, IfSome};
ghost use Rattle.hb_isa.specs.Table as table;

use hb_base::{Dir, Port};

/// Whether a load of this size at this address reads the port.
fn is_read_at(port: &Port, address: u32, size: u8) -> bool
    ensures { result ≡ table.is_read_at address size port.now }
{
    match port.dir {
        Dir::In => port.address == address && port.width == size,
        Dir::Out => false,
    }
}

/// Whether a store of this size at this address writes the port.
fn is_written_at(port: &Port, address: u32, size: u8) -> bool
    ensures { result ≡ table.is_written_at address size port.now }
{
    match port.dir {
        Dir::In => false,
        Dir::Out => port.address == address && port.width == size,
    }
}

fn place_read_at(ports: &[Port], address: u32, size: u8) -> Option<usize>
    ensures { result ≡ position (table.is_read_at address size) ports.now }
{
    ports
        .iter()
        .position(|port| is_read_at(port, address, size))
}

/// The number of the In port that a load of this size at this address reads.
#[tactic(auto, using(crate::proofs::PortLaws::placed))]
pub fn port_read_at(ports: &[Port], address: u32, size: u8) -> Option<u32>
    requires { length ports.now ≤ 256 }
    ensures value { result ≡ position (table.is_read_at address size) ports.now }
    ensures within { IfSome result (λ number. number < 256) }
    ensures there { IfSome result (λ number. number < length ports.now) }
{
    match place_read_at(ports, address, size) {
        Some(place) => Some(place as u32),
        None => None,
    }
}

fn place_written_at(ports: &[Port], address: u32, size: u8) -> Option<usize>
    ensures { result ≡ position (table.is_written_at address size) ports.now }
{
    ports
        .iter()
        .position(|port| is_written_at(port, address, size))
}

/// The number of the Out port that a store of this size at this address writes.
#[tactic(auto, using(crate::proofs::PortLaws::placed))]
pub fn port_written_at(ports: &[Port], address: u32, size: u8) -> Option<u32>
    requires { length ports.now ≤ 256 }
    ensures value { result ≡ position (table.is_written_at address size) ports.now }
    ensures within { IfSome result (λ number. number < 256) }
{
    match place_written_at(ports, address, size) {
        Some(place) => Some(place as u32),
        None => None,
    }
}
