//! The routines that compiled programs call: multiplication and division in RV32I.
#![tactic(auto)]

mod divide;
mod mnemonics;
mod multiply;

pub use divide::divide_code;
pub use multiply::multiply_code;
