//! The plain types that every other crate speaks of: lists, texts, places, ports and the lines of a run.
#![tactic(auto)]

pub mod fixed;
pub mod limits;
mod list;
mod memory;
mod name;
mod names;
mod place;
mod port;
mod refusal;
mod script;
mod step;
mod text;

pub use list::List;
pub use memory::Memory;
pub use name::Name;
pub use names::Names;
pub use place::Place;
pub use port::{Dir, Port};
pub use refusal::{Code, Detail, Fault, Refusal, refused};
pub use script::{Script, ScriptLine};
pub use step::{Step, Stop};
pub use text::Text;

#[cfg(test)]
mod tests;
