use crate::declared::Declared;
use crate::faults::Faults;
use hb_base::List;
use hb_tree::{Decl, Sig};

/// The names of a signature that nothing defines.
fn undefined(declared: &Declared, sig: &Sig, faults: &mut Faults) {
    for at in sig.names.as_slice() {
        if !declared.defined.has(at.name) {
            faults.put_lone(at.place, at.name);
        }
    }
}

/// The definitions without signature, and the signatures without definition.
pub(crate) fn lone_names(declared: &Declared, decls: &List<Decl>, faults: &mut Faults) {
    for decl in decls.as_slice() {
        match decl {
            Decl::Sig(sig) => undefined(declared, sig, faults),
            Decl::Equation(bind) => {
                if !declared.signed.has(bind.name) {
                    faults.put_lone(bind.place, bind.name);
                }
            }
            _ => {}
        }
    }
}
