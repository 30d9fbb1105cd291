//! What a source, an image, a script and a run may be at most.

/// Bytes of a source.
pub const SOURCE_BYTES: u32 = 1_048_576;

/// Brackets and blocks open at one place, the block of the whole program among them.
pub const OPEN_BRACKETS: u32 = 200;

/// Levels of the tree: a form at this depth is the deepest, where the program is at 0.
pub const TREE_DEPTH: u32 = 200;

/// The greatest number that is written in a source as a number.
pub const NUMBER: u64 = 0xFFFF_FFFF_FFFF_FFFF;

/// Bits of a bit literal.
pub const LITERAL_BITS: u32 = 128;

/// Bits of the widest `Bit n` and of the widest bitdata type.
pub const BIT_WIDTH: u32 = 32;

/// Ports of a program.
pub const PORTS: u32 = 256;

/// Bytes of a port's name.
pub const PORT_NAME_BYTES: u32 = 64;

/// States of a match.
pub const MATCH_STATES: u32 = 4_096;

/// Ground instances of a program.
pub const INSTANCES: u32 = 4_096;

/// Nodes of an instance's type.
pub const TYPE_NODES: u32 = 256;

/// Words of a value.
pub const VALUE_WORDS: u32 = 64;

/// Labels of one closure class.
pub const CLASS_LABELS: u32 = 256;

/// Labels of all closure classes of a program.
pub const ALL_LABELS: u32 = 16_384;

/// Nodes of the ground bodies of a program.
pub const GROUND_NODES: u32 = 65_536;

/// Bytes of all areas of a program.
pub const AREA_BYTES: u32 = 16_777_216;

/// Bytes of the smallest stack.
pub const LEAST_STACK_BYTES: u32 = 4_096;

/// Bytes of the stack where no other number is given.
pub const STANDARD_STACK_BYTES: u32 = 1_048_576;

/// Bytes of the greatest stack.
pub const STACK_BYTES: u32 = 16_777_216;

/// Steps of a run where no other number is given.
pub const STANDARD_STEPS: u64 = 100_000_000;

/// Bytes of a script.
pub const SCRIPT_BYTES: u32 = 1_048_576;

/// Instructions of an image's code.
pub const CODE_WORDS: u32 = 134_201_344;

/// Bytes of a refusal's detail.
pub const DETAIL_BYTES: usize = 200;
