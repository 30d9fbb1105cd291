use hb_base::{Memory, Name, fixed};
use hb_tree::Decl;
use std::alloc::Global;

/// The built-in types in the order of their numbers, with the arrow at 9, which has no name.
const BUILT_IN: [(Name, u32); 12] = [
    (fixed::UNSIGNED, 0),
    (fixed::SIGNED, 1),
    (fixed::BIT, 2),
    (fixed::IX, 3),
    (fixed::NON_ZERO, 4),
    (fixed::M, 5),
    (fixed::IN, 6),
    (fixed::OUT, 7),
    (fixed::REF, 8),
    (fixed::STORED, 10),
    (fixed::BE, 11),
    (fixed::ARRAY, 12),
];

/// The built-in predicates that have names, with their numbers.
const PREDICATES: [(Name, u32); 5] = [
    (fixed::WIDTH, 4),
    (fixed::INDEX, 5),
    (fixed::NUM_LIT, 6),
    (fixed::BIT_REP, 7),
    (fixed::CELL, 8),
];

/// The number of the arrow among type constructors.
pub const ARROW: u32 = 9;

/// The number of the first declared type among type constructors.
pub const FIRST_TYPE: u32 = 13;

/// The number of the first declared class among predicates.
pub const FIRST_CLASS: u32 = 9;

/// A number for some names.
#[derive(Drop)]
pub struct NameNumbers {
    numbers: Vec<Option<u32>>,
}

impl NameNumbers {
    /// No name of so many has a number.
    pub fn new(alloc: Global, count: u32) -> Result<NameNumbers, Memory> {
        let mut numbers = Vec::new(alloc);
        for _ in 0..count {
            numbers.push(None)?;
        }
        Ok(NameNumbers { numbers })
    }

    pub fn of(&self, name: Name) -> Option<u32> {
        match self.numbers.get(name.0 as usize) {
            Some(number) => *number,
            None => None,
        }
    }

    pub fn set(&mut self, name: Name, number: Option<u32>) {
        if let Some(entry) = self.numbers.get_mut(name.0 as usize) {
            *entry = number;
        }
    }

    /// Gives a name a number, if it has none yet.
    pub fn set_first(&mut self, name: Name, number: u32) {
        if self.of(name).is_none() {
            self.set(name, Some(number));
        }
    }
}

/// The numbers of type constructors and of predicates by their names.
#[derive(Drop)]
pub struct Numbers {
    pub types: NameNumbers,
    pub classes: NameNumbers,
}

/// A number one higher.
pub fn next(number: u32) -> u32 {
    number.saturating_add(1)
}

impl Numbers {
    /// What the names of types and classes mean in these declarations, of so many names.
    pub fn of(alloc: Global, count: u32, decls: &[Decl]) -> Result<Numbers, Memory> {
        let mut numbers = Numbers {
            types: NameNumbers::new(alloc, count)?,
            classes: NameNumbers::new(alloc, count)?,
        };
        for (name, number) in &BUILT_IN {
            numbers.types.set(*name, Some(*number));
        }
        for (name, number) in &PREDICATES {
            numbers.classes.set(*name, Some(*number));
        }
        numbers.take_in(decls);
        Ok(numbers)
    }

    fn take_in(&mut self, decls: &[Decl]) {
        let mut of_type = FIRST_TYPE;
        let mut of_class = FIRST_CLASS;
        for decl in decls {
            match decl {
                Decl::Data(_, at, _, _) | Decl::Bitdata(_, at, _, _) | Decl::Struct(_, at, _, _) =>
                    {
                        self.types.set_first(at.name, of_type);
                        of_type = next(of_type);
                    }
                Decl::Class(_, _, at, _, _, _) => {
                    self.classes.set_first(at.name, of_class);
                    of_class = next(of_class);
                }
                _ => {}
            }
        }
    }
}
