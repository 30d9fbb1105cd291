use crate::faults::Faults;
use crate::name_set::NameSet;
use hb_base::{List, Memory, Name};
use hb_tree::{Bind, Decl, Sig};
use std::alloc::Global;

/// The methods of all classes, each with its class, in the order of their numbers.
#[derive(Drop)]
pub(crate) struct Methods {
    /// The numbers of the names of class and method.
    pairs: Vec<(u32, u32)>,
}

fn put_methods(pairs: &mut Vec<(u32, u32)>, class: Name, sigs: &[Sig]) -> Result<(), Memory> {
    for sig in sigs {
        for at in sig.names.as_slice() {
            pairs.push((class.0, at.name.0))?;
        }
    }
    Ok(())
}

impl Methods {
    /// The methods of the classes among the declarations. Of classes of one name the first one counts.
    pub(crate) fn of(alloc: Global, names: u32, decls: &List<Decl>) -> Result<Methods, Memory> {
        let mut seen = NameSet::new(alloc, names)?;
        let mut pairs = Vec::new(alloc);
        for decl in decls.as_slice() {
            if let Decl::Class(_, _, name, _, _, sigs) = decl {
                if !seen.put(name.name) {
                    put_methods(&mut pairs, name.name, sigs.as_slice())?;
                }
            }
        }
        pairs.sort_unstable();
        Ok(Methods { pairs })
    }

    /// The class has this method.
    fn has(&self, class: Name, method: Name) -> bool {
        self.pairs.binary_search(&(class.0, method.0)).is_ok()
    }

    /// The equations of an instance that are of no method of its class.
    fn instance(&self, class: Name, binds: &[Bind], faults: &mut Faults) {
        for bind in binds {
            if !self.has(class, bind.name) {
                faults.put_unbound(bind.place, bind.name);
            }
        }
    }

    /// The equations of all instances that are of no method.
    pub(crate) fn instances(&self, decls: &List<Decl>, faults: &mut Faults) {
        for decl in decls.as_slice() {
            if let Decl::Instance(_, class, _, _, binds) = decl {
                self.instance(class.name, binds.as_slice(), faults);
            }
        }
    }
}
