ghost use Rattle.std.specs.Prelude.{◌<◌};
ghost use Rattle.std.specs.Option.{ForSome};

/// A port as it is declared: the bytes of its type, if a port may have it, its address, and how long its name is.
#[derive(Clone, Copy, Debug, PartialEq, Eq)]
pub struct PortForm {
    pub width: Option<u8>,
    pub address: u128,
    pub name_bytes: usize,
    pub ghost some: { ForSome width (λ w. 0 < w) },
}
