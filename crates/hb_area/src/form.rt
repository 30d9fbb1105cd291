ghost use Rattle.std.specs.Prelude.{◌^◌, ◌<◌, ◌≤◌};

/// How a cell's value stands in memory: in 1, 2 or 4 bytes, the most significant one first where it is big-endian.
#[derive(Clone, Copy, Debug, PartialEq, Eq)]
pub struct CellForm {
    pub bytes: u8,
    pub big: bool,
    pub ghost some: { 0 < bytes },
    pub ghost few: { bytes ≤ 4 },
}

/// A type of memory: a cell; a cell of a type that is not stored; so many of one type after another; or a struct, by
/// its number among those that are laid out.
#[derive(Debug, Drop)]
pub enum AreaForm {
    Cell(CellForm),
    Broken,
    Array(u64, Box<AreaForm>),
    Struct(u32),
}

/// The bytes of a type of memory and its alignment. A size of 2^32 stands for every size from there on.
#[derive(Clone, Copy, Debug, PartialEq, Eq)]
pub struct Extent {
    pub size: u64,
    pub align: u32,
    pub ghost capped: { size ≤ 2 ^ 32 },
    pub ghost positive: { 0 < align },
}
