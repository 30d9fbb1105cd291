//! The instructions of RV32I and how words of 32 bits code them, after the RISC-V unprivileged ISA.
#![tactic(auto)]

mod decoding;
mod encoding;
mod fields;
mod instr;
mod part;
#[cfg(test)]
mod tests;

pub use decoding::decode;
pub use encoding::encode;
pub use instr::{AluOp, BranchOp, Instr, LoadOp, StoreOp};
pub use part::{Asm, AsmPart};
