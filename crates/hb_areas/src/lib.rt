//! The memory of a program: its structs and areas laid out, its ports, and what is wrong with them.
#![tactic(auto)]

mod cells;
mod fault;
mod initial;
mod map;
mod ports;
mod shape;
mod structs;

pub use cells::{CellType, cell_type};
pub use fault::{AreaRefusal, Faults};
pub use map::{AreaSpot, Map, Memories, lay_out_areas, place_all};
pub use shape::{area_form, array_of, struct_of};
pub use structs::Structs;
