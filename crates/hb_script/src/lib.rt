//! The texts of a run: scripts of port inputs, which are read, and the lines of a trace, which are written.
#![tactic(auto)]

pub mod buffer;
mod content;
mod end;
mod fault;
mod line;
mod reading;
mod value;
mod words;

pub use end::end_text;
pub use fault::ScriptError;
pub use line::line_text;
pub use reading::read;

#[cfg(test)]
mod tests;
