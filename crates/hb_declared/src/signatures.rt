use crate::form::Scheme;
use crate::items::signature;
use crate::numbers::Numbers;
use crate::writer::Writer;
use hb_base::{List, Memory, Name};
use hb_resolved::Resolved;
use hb_tree::{Decl, Program, Sig};
use std::alloc::Global;

/// A name and the number of its scheme.
#[derive(Clone, Copy, Debug, PartialEq, Eq)]
pub struct Signed {
    pub name: Name,
    pub scheme: u32,
}

/// The schemes of some signatures, and the names that have them, in text order.
#[derive(Debug, Drop)]
pub struct Signatures {
    pub schemes: List<Scheme>,
    pub names: List<Signed>,
}

impl Signatures {
    fn put(&mut self, sig: &Sig, scheme: Scheme) -> Result<(), Memory> {
        let number = u32::try_from(self.schemes.len()).unwrap_or(u32::MAX);
        self.schemes.push(scheme)?;
        for at in sig.names.as_slice() {
            self.names.push(Signed {
                name: at.name,
                scheme: number,
            })?;
        }
        Ok(())
    }

    /// The scheme of a name.
    pub fn of(&self, name: Name) -> Option<&Scheme> {
        let signed = self
            .names
            .as_slice()
            .iter()
            .find(|signed| signed.name == name)?;
        self.schemes.as_slice().get(signed.scheme as usize)
    }
}

/// The signatures of a text that is read beside a program, as that of the primitives, over the types and classes of the program. Both
/// were read with one table of names.
pub fn read_signatures(
    alloc: Global,
    tree: &Resolved,
    beside: &Program,
) -> Result<Signatures, Memory> {
    let count = tree.names.count();
    let numbers = Numbers::of(alloc, count, tree.program.decls.as_slice())?;
    let mut writer = Writer::new(alloc, count, numbers)?;
    let mut found = Signatures {
        schemes: List::of(Vec::new(alloc)),
        names: List::of(Vec::new(alloc)),
    };
    for decl in beside.decls.as_slice() {
        if let Decl::Sig(sig) = decl {
            let scheme = signature(&mut writer, sig.context.as_slice(), &sig.body)?;
            found.put(sig, scheme)?;
        }
    }
    Ok(found)
}
