use hb_base::{Memory, Name};
use hb_fixity::Fixity;
use hb_tree::{Decl, Program};
use std::alloc::Global;

/// What each name groups as, by its number: as the first declaration says that speaks of it.
#[derive(Drop)]
pub(crate) struct Fixities {
    declared: Vec<Option<Fixity>>,
}

impl Fixities {
    /// So many names, of which nothing is declared.
    pub(crate) fn new(alloc: Global, names: u32) -> Result<Fixities, Memory> {
        let declared = vec![in alloc; None; names as usize]?;
        Ok(Fixities { declared })
    }

    /// What the name groups as.
    pub(crate) fn of(&self, name: Name) -> Fixity {
        match self.declared.get(name.0 as usize) {
            Some(Some(fixity)) => *fixity,
            _ => Fixity::STANDARD,
        }
    }

    fn declare(&mut self, name: Name, fixity: Fixity) {
        if let Some(slot) = self.declared.get_mut(name.0 as usize) {
            if slot.is_none() {
                *slot = Some(fixity);
            }
        }
    }

    fn declare_decl(&mut self, decl: &Decl) {
        if let Decl::Fixity(_, fix, level, names) = decl {
            let fixity = Fixity {
                fix: *fix,
                level: *level,
            };
            for name in names.as_slice() {
                self.declare(name.name, fixity);
            }
        }
    }

    /// Takes in what a program declares.
    pub(crate) fn take_in(&mut self, program: &Program) {
        for decl in program.decls.as_slice() {
            self.declare_decl(decl);
        }
    }
}
