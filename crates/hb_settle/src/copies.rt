use hb_base::{List, Memory};
use hb_tree::{FieldPat, Pat, PatKind};
use std::alloc::Global;

/// The same pattern.
#[cycle(copies)]
pub(crate) fn copy_pat(alloc: Global, pat: &Pat) -> Result<Pat, Memory> {
    let at = pat.place;
    match &pat.kind {
        PatKind::Any => Ok(Pat::any(at)),
        PatKind::Var(name) => Ok(Pat::var(at, *name)),
        PatKind::Number(value) => Ok(Pat::number(at, *value)),
        PatKind::Bits(width, value) => Ok(Pat::bits(at, *width, *value)),
        PatKind::Unit => Ok(Pat::unit(at)),
        PatKind::Con(name, args) => {
            let args = copy_pats(alloc, args.as_slice())?;
            Ok(Pat::con(at, *name, args))
        }
        PatKind::Fields(name, fields) => {
            let fields = copy_fields(alloc, fields.as_slice())?;
            Ok(Pat::fields(at, *name, fields))
        }
        PatKind::Pair(first, second) => {
            let first = copy_pat(alloc, first)?;
            let second = copy_pat(alloc, second)?;
            Pat::pair(alloc, at, first, second)
        }
    }
}

/// The same patterns.
#[cycle(copies)]
#[tactic(auto, using(crate::proofs::Parts::pat_falls))]
pub(crate) fn copy_pats(alloc: Global, pats: &[Pat]) -> Result<List<Pat>, Memory> {
    let mut copies = List::of(Vec::new(alloc));
    for pat in pats {
        let copy = copy_pat(alloc, pat)?;
        copies.push(copy)?;
    }
    Ok(copies)
}

/// The same patterns of fields.
#[cycle(copies)]
#[tactic(auto, using(crate::proofs::Parts::field_pat_falls))]
fn copy_fields(alloc: Global, fields: &[FieldPat]) -> Result<List<FieldPat>, Memory> {
    let mut copies = List::of(Vec::new(alloc));
    for field in fields {
        let pat = copy_pat(alloc, &field.pat)?;
        copies.push(FieldPat {
            place: field.place,
            name: field.name,
            pat,
        })?;
    }
    Ok(copies)
}
