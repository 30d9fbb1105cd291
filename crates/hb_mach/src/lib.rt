//! The machine: what each instruction of RV32I does to registers, memory and ports, step by step, after the
//! RISC-V unprivileged ISA. Its table is `specs/Table.antt`.
#![tactic(auto)]

mod access;
mod arithmetic;
mod inputs;
mod little;
mod machine;
mod ports;
mod ram;
mod region;
mod registers;
mod run;
mod step;
#[cfg(test)]
mod tests;
mod turn;

pub use machine::Machine;
