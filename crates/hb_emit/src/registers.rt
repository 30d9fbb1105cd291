//! What each register is for. Jumps to labels go by way of x5, and the routines leave their results in x10 and x11.

/// Always 0.
pub const ZERO: u8 = 0;

/// The address to which a call returns.
pub const LINK: u8 = 1;

/// The lowest address of the frame.
pub const STACK: u8 = 2;

/// The address of a word that is written, and sizes of frames.
pub const ADDRESS: u8 = 6;

/// A first operand, what is computed, and the code of a halt.
pub const FIRST: u8 = 10;

/// A second operand, and what a routine leaves as a remainder.
pub const SECOND: u8 = 11;

/// Which end an environment call is: 0 is done, 1 is a halt, 2 is that the stack is used up.
pub const END: u8 = 17;
