//! The ports of an image, one behind the other.

ghost use Rattle.std.specs.Prelude.{◌≡◌, ◌+◌, ◌≤◌, ◌^◌, [], not};
ghost use Rattle.std.specs.List.{list_all, list_any};
ghost use Rattle.std.specs.Str.{bytes_eq};
ghost use Rattle.hb_image.specs.Reading;
ghost use Rattle.hb_image.specs.Reading.{Gives, is_address, is_new_name, address_at, name_at, port_at, ports_at};

use crate::fault::{Field, ImageError};
use crate::fields::{bytes_of, kind_of, length_of, u32_of, width_of};
use crate::names::is_port_name;
use hb_base::{List, Port, Text};
use std::alloc::Global;

fn is_apart(port: &Port, address: u32, width: u8) -> bool
    ensures { result ≡ Reading.is_apart address width port.now }
{
    let port_start = port.address as u64;
    let port_end = port_start + port.width as u64;
    port_end <= address as u64 || address as u64 + width as u64 <= port_start
}

fn are_apart(ports: &[Port], address: u32, width: u8) -> bool
    ensures { result ≡ list_all (Reading.is_apart address width) ports.now }
{
    ports.iter().all(|port| is_apart(port, address, width))
}

fn is_good_address(ports: &[Port], width: u8, address: u32) -> bool
    requires { 1 ≤ width }
    ensures { result ≡ is_address ports.now width address }
{
    address >= 0x8000_0000 && address % u32::from(width) == 0 && are_apart(ports, address, width)
}

#[tactic(auto, unfolding(crate::specs::Reading::address_at))]
fn address_of<'a>(ports: &[Port], width: u8, bytes: &'a [u8]) -> Result<(u32, &'a [u8]), ImageError>
    requires { 1 ≤ width }
    ensures { Gives (λ x. (x.0, x.1.now)) result (address_at ports.now width bytes.now) }
{
    let (address, rest) = u32_of(bytes)?;
    if !is_good_address(ports, width, address) {
        return Err(ImageError::Bad(Field::Address));
    }
    Ok((address, rest))
}

fn is_taken(ports: &[Port], name: &[u8]) -> bool
    ensures { result ≡ list_any (λ port. bytes_eq port.name name.now) ports.now }
{
    ports.iter().any(|port| port.name.as_slice() == name)
}

#[tactic(auto, unfolding(crate::specs::Reading::name_at))]
fn name_of<'a>(ports: &[Port], len: u8, bytes: &'a [u8]) -> Result<(&'a [u8], &'a [u8]), ImageError>
    ensures { Gives (λ x. (x.0.now, x.1.now)) result (name_at ports.now len bytes.now) }
{
    let (name, rest) = bytes_of(bytes, usize::from(len))?;
    if !is_port_name(name) || is_taken(ports, name) {
        return Err(ImageError::Bad(Field::Name));
    }
    Ok((name, rest))
}

#[tactic(auto, unfolding(crate::specs::Reading::port_at))]
fn port_of<'a>(
    alloc: Global,
    ports: &[Port],
    bytes: &'a [u8],
) -> Result<(Port, &'a [u8]), ImageError>
    ensures { Gives (λ x. (x.0, x.1.now)) result (port_at ports.now bytes.now) }
{
    let (dir, rest) = kind_of(bytes)?;
    let (width, rest) = width_of(rest)?;
    let (len, rest) = length_of(rest)?;
    let (address, rest) = address_of(ports, width, rest)?;
    let (name, rest) = name_of(ports, len, rest)?;
    let name = Text::of(Vec::from_slice(alloc, name)?);
    Ok((
        Port {
            name,
            dir,
            width,
            address,
        },
        rest,
    ))
}

/// So many ports.
pub fn ports_of(alloc: Global, count: u16, bytes: &[u8]) -> Result<(List<Port>, &[u8]), ImageError>
    ensures { Gives (λ x. (x.0, x.1.now)) result (ports_at count [] bytes.now) }
{
    let mut ports = Vec::new(alloc);
    let mut rest = bytes;
    for _ in 0..count {
        let (port, after) = port_of(alloc, ports.as_slice(), rest)?;
        ports.push(port)?;
        rest = after;
    }
    Ok((List::of(ports), rest))
}
