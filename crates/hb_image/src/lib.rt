//! Images: what the compiler writes and the machine loads, and the file format that holds them.
#![tactic(auto)]

mod fault;
mod fields;
mod image;
mod names;
mod ports;
mod reading;
mod writing;

pub use fault::{Field, ImageError};
pub use image::Image;
pub use reading::read;
pub use writing::write;

#[cfg(test)]
mod tests;
