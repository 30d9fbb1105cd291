use hb_base::List;
use hb_types::Types;

/// The kind of each type constructor, and those of the parameters of each class. A kind is a type in one table, over the
/// constructors 0 for the kind of types, 1 for that of numbers, 2 for that of areas, and 3 for arrows; and it is named by its
/// place there.
#[derive(Debug, Drop)]
pub struct KindTable {
    kinds: Types,
    types: List<usize>,
    classes: List<List<usize>>,
}

impl KindTable {
    pub fn new(kinds: Types, types: List<usize>, classes: List<List<usize>>) -> KindTable {
        KindTable {
            kinds,
            types,
            classes,
        }
    }

    /// All kinds.
    pub fn kinds(&self) -> &Types {
        &self.kinds
    }

    /// The kind of a type constructor, by its number: the built-in ones are those from 0, the declared ones those from 13.
    pub fn of(&self, number: u32) -> Option<usize> {
        self.types.as_slice().get(number as usize).copied()
    }

    /// The kinds of the parameters of a declared class, by its number from 0.
    pub fn of_class(&self, number: u32) -> Option<&[usize]> {
        let places = self.classes.as_slice().get(number as usize)?;
        Some(places.as_slice())
    }
}
