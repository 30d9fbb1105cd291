//! The numbers of the type constructors: those of the declared types follow the built-in ones.

/// `Unsigned`
pub const UNSIGNED: u32 = 0;

/// `Signed`
pub const SIGNED: u32 = 1;

/// `Bit`
pub const BIT: u32 = 2;

/// `Ix`
pub const IX: u32 = 3;

/// `NonZero`
pub const NON_ZERO: u32 = 4;

/// `M`
pub const ACTION: u32 = 5;

/// `In`
pub const IN: u32 = 6;

/// `Out`
pub const OUT: u32 = 7;

/// `Ref`
pub const REF: u32 = 8;

/// `->`
pub const ARROW: u32 = 9;

/// `Stored`
pub const STORED: u32 = 10;

/// `BE`
pub const BIG_ENDIAN: u32 = 11;

/// `Array`
pub const AREA_ARRAY: u32 = 12;

/// The first declared type.
pub const FIRST_DECLARED: u32 = 13;
