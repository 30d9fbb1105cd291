use crate::cells::port_bytes;
use crate::fault::Faults;
use hb_area::{PortFault, PortForm, PortSpot, port_fault};
use hb_base::{List, Memory, Name, Names, Port, Text};
use hb_declared::Declared;
use hb_layouts::Layouts;
use std::alloc::Global;

fn detail(fault: PortFault) -> &'static [u8] {
    match fault {
        PortFault::Place => b"place",
        PortFault::Align => b"align",
        PortFault::Overlap => b"overlap",
        PortFault::NotStored => b"type",
        PortFault::Name => b"name",
        PortFault::Count => b"count",
    }
}

fn text_of(names: &Names, name: Name) -> &[u8] {
    names.text(name).unwrap_or(b"")
}

/// A port as hb_area looks at it.
fn form(bytes: Option<u8>, address: u128, name_bytes: usize) -> PortForm {
    match bytes {
        Some(1) => PortForm {
            width: Some(1),
            address,
            name_bytes,
        },
        Some(2) => PortForm {
            width: Some(2),
            address,
            name_bytes,
        },
        Some(4) => PortForm {
            width: Some(4),
            address,
            name_bytes,
        },
        _ => PortForm {
            width: None,
            address,
            name_bytes,
        },
    }
}

/// The ports of a program that stand, in text order; what is wrong with one goes to the faults.
pub(crate) fn ports(
    alloc: Global,
    names: &Names,
    declared: &Declared,
    layouts: &Layouts,
    faults: &mut Faults,
) -> Result<List<Port>, Memory> {
    let mut spots = Vec::new(alloc);
    let mut ports = List::of(Vec::new(alloc));
    for port in declared.ports.as_slice() {
        let text = text_of(names, port.name.name);
        let bytes = port_bytes(layouts, &port.of.types, port.of.body);
        let form = form(bytes, port.address, text.len());
        if let Some(fault) = port_fault(&spots, form) {
            faults.put_port(port.place, detail(fault));
        }
        let width = bytes.unwrap_or(1);
        let address = u32::try_from(port.address).unwrap_or(u32::MAX);
        spots.push(PortSpot { width, address })?;
        ports.push(Port {
            name: Text::of(Vec::from_slice(alloc, text)?),
            dir: port.dir,
            width,
            address,
        })?;
    }
    Ok(ports)
}
