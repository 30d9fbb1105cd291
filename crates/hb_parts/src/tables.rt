use crate::declared::Declared;
use crate::shown::Shown;
use crate::spines::Spines;
use hb_base::{List, Memory};
use hb_mono::Mono;
use std::alloc::Global;

/// What is known of the types of a ground program, apart from any node: their heads and arguments, the declared types, and for each
/// place in the table of types the first place with the same type.
#[derive(Drop)]
pub struct Tables {
    pub(crate) spines: Spines,
    pub(crate) declared: Declared,
    pub(crate) shown: Shown,
    first: List<usize>,
}

impl Tables {
    /// The tables of a ground program, in time that is near linear in its types, where few declared types rest on one another.
    pub fn new(alloc: Global, mono: &Mono) -> Result<Tables, Memory> {
        let spines = Spines::new(alloc, &mono.types)?;
        let declared = Declared::new(alloc, &spines, mono)?;
        let count = u32::try_from(mono.data.len()).unwrap_or(u32::MAX);
        let shown = Shown::new(alloc, &declared, count)?;
        let first = mono.types.normal(alloc)?;
        Ok(Tables {
            spines,
            declared,
            shown,
            first,
        })
    }

    /// The first place with the type of this place: two types are equal where these are.
    pub fn first(&self, place: usize) -> usize {
        self.first.as_slice().get(place).copied().unwrap_or(place)
    }

    /// How many arguments a constructor takes.
    pub fn arity(&self, constructor: usize) -> usize {
        self.declared.arguments(constructor).count
    }
}
