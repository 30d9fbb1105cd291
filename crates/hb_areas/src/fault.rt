use hb_area::AreaFault;
use hb_base::{Code, Fault, Place, refused};
use std::alloc::Global;

/// A refusal of an area, a struct or a port: its code, its place and its detail.
#[derive(Clone, Copy)]
pub struct AreaRefusal {
    pub code: Code,
    pub place: Place,
    pub detail: &'static [u8],
}

impl AreaRefusal {
    pub fn fault(self, alloc: Global) -> Fault {
        refused(alloc, self.code, self.place, self.detail)
    }
}

/// The first fault of structs and areas by place, and the first of them there by detail; and the first fault of ports.
#[derive(Clone, Copy)]
pub struct Faults {
    area: Option<(Place, AreaFault)>,
    port: Option<AreaRefusal>,
}

fn rank(fault: AreaFault) -> u8 {
    match fault {
        AreaFault::Align => 0,
        AreaFault::Size => 1,
        AreaFault::Stride => 2,
        AreaFault::NotStored => 3,
        AreaFault::Init => 4,
    }
}

fn detail(fault: AreaFault) -> &'static [u8] {
    match fault {
        AreaFault::Align => b"align",
        AreaFault::Size => b"size",
        AreaFault::Stride => b"stride",
        AreaFault::NotStored => b"type",
        AreaFault::Init => b"init",
    }
}

/// Whether one fault is told before another: by line, by column, and by the order of the details.
fn is_before(a: (Place, AreaFault), b: (Place, AreaFault)) -> bool {
    if a.0.line != b.0.line {
        return a.0.line < b.0.line;
    }
    if a.0.col != b.0.col {
        return a.0.col < b.0.col;
    }
    rank(a.1) < rank(b.1)
}

impl Faults {
    pub fn none() -> Faults {
        Faults {
            area: None,
            port: None,
        }
    }

    pub fn put_area(&mut self, place: Place, fault: AreaFault) {
        match self.area {
            Some(known) if !is_before((place, fault), known) => {}
            _ => self.area = Some((place, fault)),
        }
    }

    /// Takes in the fault of a port; ports come in text order.
    pub fn put_port(&mut self, place: Place, detail: &'static [u8]) {
        if self.port.is_none() {
            self.port = Some(AreaRefusal {
                code: Code::E19,
                place,
                detail,
            });
        }
    }

    /// The fault that is told: one of structs and areas before one of ports.
    pub fn first(&self) -> Option<AreaRefusal> {
        match self.area {
            Some((place, fault)) => Some(AreaRefusal {
                code: Code::E18,
                place,
                detail: detail(fault),
            }),
            None => self.port,
        }
    }
}
