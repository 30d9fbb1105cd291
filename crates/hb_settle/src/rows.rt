use crate::order::earlier;
use hb_base::{List, Memory};
use hb_tree::{Bind, Decl, Equation, NameAt};
use std::alloc::Global;

/// The definitions of a block so far, where rows of one name that stand next to each other are one definition. `uneven` is
/// the earliest row so far that has another number of patterns than the first row of its definition.
#[derive(Drop)]
pub(crate) struct Rows {
    done: List<Bind>,
    open: Option<Bind>,
}

/// The number of patterns of the first row.
fn width(rows: &[Equation]) -> usize {
    match rows {
        [first, ..] => first.pats.len(),
        [] => 0,
    }
}

/// The earlier of `known` and of these rows the first that has another number of patterns.
fn uneven_row(bind: &Bind, width: usize, known: Option<NameAt>) -> Option<NameAt> {
    let mut found = known;
    for row in bind.rows.as_slice() {
        if row.pats.len() != width {
            let met = NameAt {
                place: bind.place,
                name: bind.name,
            };
            found = earlier(found, met);
        }
    }
    found
}

/// The rows of the second definition behind those of the first one.
fn joined(first: Bind, second: Bind) -> Result<Bind, Memory> {
    let Bind {
        name,
        place,
        mut rows,
    } = first;
    for row in second.rows.into_items() {
        rows.push(row)?;
    }
    Ok(Bind { name, place, rows })
}

impl Rows {
    pub(crate) fn new(alloc: Global) -> Rows {
        Rows {
            done: List::of(Vec::new(alloc)),
            open: None,
        }
    }

    /// The next definition as it is written.
    pub(crate) fn put(self, next: Bind, uneven: &mut Option<NameAt>) -> Result<Rows, Memory> {
        let Rows { mut done, open } = self;
        let open = match open {
            None => next,
            Some(last) => {
                if last.name == next.name {
                    *uneven = uneven_row(&next, width(last.rows.as_slice()), *uneven);
                    joined(last, next)?
                } else {
                    done.push(last)?;
                    next
                }
            }
        };
        Ok(Rows {
            done,
            open: Some(open),
        })
    }

    /// All definitions.
    pub(crate) fn end(self) -> Result<List<Bind>, Memory> {
        let Rows { mut done, open } = self;
        if let Some(last) = open {
            done.push(last)?;
        }
        Ok(done)
    }
}
