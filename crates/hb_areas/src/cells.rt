use hb_area::CellForm;
use hb_layouts::{Layouts, bit_width};
use hb_types::{Atom, Form, Types};

/// The numbers of some type constructors.
const IX: u32 = 3;

const REF: u32 = 8;

const STORED: u32 = 10;

const BIG_ENDIAN: u32 = 11;

/// A type of cells: how a value stands in memory, and whether it is a reference.
#[derive(Clone, Copy, Debug, PartialEq, Eq)]
pub struct CellType {
    pub form: CellForm,
    pub is_reference: bool,
}

pub(crate) fn form_at(types: &Types, place: usize) -> Form {
    if place < types.len() {
        types.form(place)
    } else {
        Form::Unknown(0)
    }
}

/// The constructor and the argument of a type that is one constructor at one type.
pub(crate) fn at_one(types: &Types, place: usize) -> Option<(u32, usize)> {
    let Form::Apply(function, argument) = form_at(types, place) else {
        return None;
    };
    match form_at(types, function) {
        Form::Leaf(Atom::Con(number)) => Some((number, argument)),
        _ => None,
    }
}

/// The cell of so many bits, if there is one.
fn of_width(width: u64, big: bool) -> Option<CellForm> {
    match width {
        8 => Some(CellForm { bytes: 1, big }),
        16 => Some(CellForm { bytes: 2, big }),
        32 => Some(CellForm { bytes: 4, big }),
        _ => None,
    }
}

/// How a value of the type at a place stands in memory, if it can: `Unsigned`, `Signed`, an index below a number above 0 and a
/// reference have four bytes; a `Bit n` and a bitdata type have those of their width, which is 8, 16 or 32.
fn stored(layouts: &Layouts, types: &Types, place: usize, big: bool) -> Option<CellType> {
    match at_one(types, place) {
        Some((IX, argument)) => match form_at(types, argument) {
            Form::Leaf(Atom::Nat(0)) => None,
            Form::Leaf(Atom::Nat(_)) => Some(CellType {
                form: CellForm { bytes: 4, big },
                is_reference: false,
            }),
            _ => None,
        },
        Some((REF, _)) => Some(CellType {
            form: CellForm { bytes: 4, big },
            is_reference: true,
        }),
        _ => {
            let form = of_width(bit_width(layouts, types, place)?, big)?;
            Some(CellType {
                form,
                is_reference: false,
            })
        }
    }
}

/// The cell that the area type at a place is, `Stored t` or `BE t` of a type t that can stand in memory.
pub fn cell_type(layouts: &Layouts, types: &Types, place: usize) -> Option<CellType> {
    match at_one(types, place)? {
        (STORED, of) => stored(layouts, types, of, false),
        (BIG_ENDIAN, of) => stored(layouts, types, of, true),
        _ => None,
    }
}

/// The bytes of a value of a port's type: those of a cell, but no port has indices or references.
pub(crate) fn port_bytes(layouts: &Layouts, types: &Types, place: usize) -> Option<u8> {
    if let Some((IX | REF, _)) = at_one(types, place) {
        return None;
    }
    let cell = stored(layouts, types, place, false)?;
    Some(cell.form.bytes)
}
