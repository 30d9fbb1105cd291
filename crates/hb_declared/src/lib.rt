//! What a resolved program declares, as tables in text order, with the written types as types.
#![tactic(auto)]

mod classes;
mod form;
mod items;
mod numbers;
mod reader;
mod signatures;
mod types;
mod writer;

pub use form::{
    Area, Ask, BitField, BitPart, Class, Constructor, ConstructorForm, Declared, DeclaredType,
    Definition, Depends, Instance, Method, Port, Scheme, StructField, StructPart, Top, TypeForm,
};
pub use reader::declared;
pub use signatures::{Signatures, Signed, read_signatures};
