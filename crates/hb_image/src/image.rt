use hb_base::{List, Port};

/// A program for the machine: its ports, the bytes of its areas, the bytes of its stack, and its code, one
/// word an instruction.
#[derive(Debug, Drop)]
pub struct Image {
    pub ports: List<Port>,
    pub areas: u32,
    pub stack: u32,
    pub code: List<u32>,
}
