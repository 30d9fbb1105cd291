//! The machine below the coding of images: its state, its memory, what each instruction of RV32I does to them after
//! the RISC-V unprivileged ISA, and where its loads and stores lie. The table is `specs/Table.antt`.
#![tactic(auto)]

mod isa;

pub use isa::{Isa, Rv32i};
