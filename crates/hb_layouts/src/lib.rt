//! The bit layouts of all declared bitdata types.
#![tactic(auto)]

mod description;
mod layouts;
mod order;
#[cfg(test)]
mod tests;
mod widths;

pub use layouts::{Layouts, lay_out};
pub use order::dependency_order;
pub use widths::{bit_width, declared_number};
