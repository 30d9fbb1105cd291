//! Area layouts: how many bytes a type of memory has, at which addresses it may stand, where its fields lie, and where
//! the areas of a program are.
#![tactic(auto)]

mod cell;
mod form;
mod measure;
mod placing;
mod port_form;
mod ports;
mod structs;

pub use cell::cell_byte;
pub use form::{AreaForm, CellForm, Extent};
pub use measure::{Measure, measure_area};
pub use placing::{AREAS_END, AREAS_START, Placing, aligned_up, is_alignment, place_areas};
pub use port_form::PortForm;
pub use ports::{PortFault, PortSpot, port_fault};
pub use structs::{
    AreaFault, FieldSpot, StructForm, StructPart, field_spots, struct_extent, struct_fault,
};

#[cfg(test)]
mod tests;
