use crate::text::Text;

/// Which way a port goes: `In` ports are read, `Out` ports are written.
#[derive(Clone, Copy, Debug, PartialEq, Eq)]
pub enum Dir {
    In,
    Out,
}

/// A declared port. The width is 1, 2 or 4 bytes; the address is the one on the bus.
#[derive(Debug, Drop)]
pub struct Port {
    pub name: Text,
    pub dir: Dir,
    pub width: u8,
    pub address: u32,
}
