//! The names that every program knows, as each new table numbers them.

use crate::name::Name;

/// `Pad`
pub const PAD: Name = Name(0);

/// `In`
pub const IN: Name = Name(1);

/// `Out`
pub const OUT: Name = Name(2);

/// `+`
pub const PLUS: Name = Name(3);

/// `*`
pub const TIMES: Name = Name(4);

/// `^`
pub const POWER: Name = Name(5);

/// `<=`
pub const AT_MOST: Name = Name(6);

/// `main`
pub const MAIN: Name = Name(7);

/// `Unsigned`
pub const UNSIGNED: Name = Name(8);

/// `Signed`
pub const SIGNED: Name = Name(9);

/// `Bit`
pub const BIT: Name = Name(10);

/// `Ix`
pub const IX: Name = Name(11);

/// `NonZero`
pub const NON_ZERO: Name = Name(12);

/// `M`
pub const M: Name = Name(13);

/// `Ref`
pub const REF: Name = Name(14);

/// `Stored`
pub const STORED: Name = Name(15);

/// `BE`
pub const BE: Name = Name(16);

/// `Array`
pub const ARRAY: Name = Name(17);

/// `Width`
pub const WIDTH: Name = Name(18);

/// `Index`
pub const INDEX: Name = Name(19);

/// `NumLit`
pub const NUM_LIT: Name = Name(20);

/// `BitRep`
pub const BIT_REP: Name = Name(21);

/// `Cell`
pub const CELL: Name = Name(22);

/// `Unit`
pub const UNIT: Name = Name(23);

/// `Pair`
pub const PAIR: Name = Name(24);

/// `Bool`
pub const BOOL: Name = Name(25);

/// `False`
pub const FALSE: Name = Name(26);

/// `True`
pub const TRUE: Name = Name(27);

/// `Maybe`
pub const MAYBE: Name = Name(28);

/// `Nothing`
pub const NOTHING: Name = Name(29);

/// `Just`
pub const JUST: Name = Name(30);

/// The number of the first primitive; the others follow it.
pub const FIRST_PRIMITIVE: u32 = 31;

/// How many primitives there are.
pub const PRIMITIVES: u32 = 38;

/// `/`
pub const SLASH: Name = Name(69);

/// `_`
pub const WILDCARD: Name = Name(70);
