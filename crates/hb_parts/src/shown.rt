use crate::declared::Declared;
use crate::heads::{ACTION, ARROW, FIRST_DECLARED};
use crate::templates::Piece;
use hb_base::Memory;
use indexmap::IndexSet;
use std::alloc::Global;

/// The arguments of type constructors whose functions and actions stand in values, by the constructor and the argument's place: both
/// of an arrow, that of an action, and a parameter of a declared type that stands in such a way in an argument of a constructor.
/// Those of references, ports and numbers do not.
#[derive(Drop)]
pub(crate) struct Shown {
    parameters: IndexSet<(u32, usize)>,
}

impl Shown {
    /// The argument of a type constructor at a place.
    pub(crate) fn has(&self, con: u32, place: usize) -> bool {
        if con < FIRST_DECLARED {
            con == ARROW || con == ACTION
        } else {
            self.parameters.contains(&(con, place))
        }
    }

    fn put(&mut self, con: u32, place: usize) -> Result<(), Memory> {
        self.parameters.insert((con, place))?;
        Ok(())
    }

    /// One piece of a template of a declared type, where `seen` says whether it stands in values. What it says of its arguments is put
    /// on the stack.
    fn piece(
        &mut self,
        con: u32,
        piece: Piece,
        seen: bool,
        due: &mut Vec<bool>,
    ) -> Result<(), Memory> {
        match piece {
            Piece::Whole(_) => {}
            Piece::Parameter(number) => {
                if seen {
                    self.put(con, number)?;
                }
            }
            Piece::Con(of, count) => {
                for place in 0..count {
                    due.push(seen && self.has(of, place))?;
                }
            }
            Piece::Applied(number, count) => {
                if seen {
                    self.put(con, number)?;
                }
                for _ in 0..count {
                    due.push(seen)?;
                }
            }
        }
        Ok(())
    }

    /// All pieces of a template of a declared type.
    fn template(&mut self, alloc: Global, con: u32, pieces: &[Piece]) -> Result<(), Memory> {
        let mut due = Vec::new(alloc);
        due.push(true)?;
        for piece in pieces {
            let seen = due.pop().unwrap_or(false);
            self.piece(con, *piece, seen, &mut due)?;
        }
        Ok(())
    }

    /// All templates of a declared type.
    fn declaration(&mut self, alloc: Global, declared: &Declared, con: u32) -> Result<(), Memory> {
        for constructor in declared.constructors(con).places() {
            for template in declared.arguments(constructor).places() {
                self.template(alloc, con, declared.templates.pieces(template))?;
            }
        }
        Ok(())
    }

    /// All declared types.
    fn declarations(
        &mut self,
        alloc: Global,
        declared: &Declared,
        count: u32,
    ) -> Result<(), Memory> {
        for number in 0..count {
            self.declaration(alloc, declared, FIRST_DECLARED.saturating_add(number))?;
        }
        Ok(())
    }

    /// The least answer: the declarations are gone through until nothing more is found.
    pub(crate) fn new(alloc: Global, declared: &Declared, count: u32) -> Result<Shown, Memory> {
        let mut shown = Shown {
            parameters: IndexSet::new(alloc),
        };
        for _ in 0..u64::MAX {
            let before = shown.parameters.len();
            shown.declarations(alloc, declared, count)?;
            if shown.parameters.len() == before {
                break;
            }
        }
        Ok(shown)
    }
}
