use crate::fixities::Fixities;
use crate::numbering::Numbering;
use crate::rows::Rows;
use crate::settler::Settler;
use hb_base::{List, Memory};
use hb_tree::{Bind, Decl, NameAt, Program};
use std::alloc::Global;

/// A program with its operators grouped, its pairs as applications, the rows of one name as one definition, and its nodes
/// numbered from 0 in node order. `nodes` is their number. `uneven` is the earliest row that has another number of patterns
/// than the first row of its definition, with the name of the definition, and `clash` the earliest operator for which the run
/// up to its right operand groups in no way.
#[derive(Drop)]
pub struct Settled {
    pub program: Program,
    pub nodes: u32,
    pub uneven: Option<NameAt>,
    pub clash: Option<NameAt>,
}

impl Settler {
    /// A definition of the top, if the declaration is one.
    fn top(&mut self, decl: &Decl) -> Result<Option<Bind>, Memory> {
        match decl {
            Decl::Equation(bind) => {
                let rows = self.rows(bind.rows.as_slice())?;
                Ok(Some(Bind {
                    name: bind.name,
                    place: bind.place,
                    rows,
                }))
            }
            _ => Ok(None),
        }
    }

    /// Settles what stands inside a declaration.
    fn inside(&mut self, decl: &mut Decl) -> Result<(), Memory> {
        match decl {
            Decl::Area(_, _, Some(init), _, _) => {
                let settled = self.init(init)?;
                *init = settled;
            }
            Decl::Instance(_, _, _, _, binds) => {
                let settled = self.binds(binds.as_slice())?;
                *binds = settled;
            }
            _ => {}
        }
        Ok(())
    }

    /// Puts a declaration that is no definition, settled, behind those that are done, and the rows before it.
    fn other(&mut self, rows: Rows, mut decl: Decl, done: &mut List<Decl>) -> Result<(), Memory> {
        put_all(rows, done)?;
        self.inside(&mut decl)?;
        done.push(decl)?;
        Ok(())
    }

    /// Takes in one declaration, and answers the rows that wait.
    fn declaration(
        &mut self,
        rows: Rows,
        decl: Decl,
        done: &mut List<Decl>,
    ) -> Result<Rows, Memory> {
        match self.top(&decl)? {
            Some(bind) => {
                let more = rows.put(bind, &mut self.uneven)?;
                Ok(more)
            }
            None => {
                self.other(rows, decl, done)?;
                Ok(Rows::new(self.alloc))
            }
        }
    }

    /// Puts the declarations of a program, settled, behind those that are done.
    fn program(&mut self, program: Program, done: &mut List<Decl>) -> Result<(), Memory> {
        let mut rows = Rows::new(self.alloc);
        for decl in program.decls.into_items() {
            rows = self.declaration(rows, decl, done)?;
        }
        put_all(rows, done)
    }
}

/// Puts definitions behind the declarations that are done.
fn put_all(rows: Rows, done: &mut List<Decl>) -> Result<(), Memory> {
    for bind in rows.end()?.into_items() {
        done.push(Decl::Equation(bind))?;
    }
    Ok(())
}

impl Numbering {
    fn inside(&mut self, decl: &mut Decl) -> Result<(), Memory> {
        match decl {
            Decl::Equation(bind) => {
                let rows = self.rows(bind.rows.as_slice())?;
                bind.rows = rows;
            }
            Decl::Area(_, _, Some(init), _, _) => {
                let numbered = self.init(init)?;
                *init = numbered;
            }
            Decl::Instance(_, _, _, _, binds) => {
                let numbered = self.binds(binds.as_slice())?;
                *binds = numbered;
            }
            _ => {}
        }
        Ok(())
    }

    fn program(&mut self, decls: List<Decl>) -> Result<Program, Memory> {
        let mut done = List::of(Vec::new(self.alloc));
        for mut decl in decls.into_items() {
            self.inside(&mut decl)?;
            done.push(decl)?;
        }
        Ok(Program { decls: done })
    }
}

/// The program of the prelude and a source, in which there are so many names. Each operator has the fixity of the first
/// declaration that speaks of its name. Rows of the prelude and of the source are never one definition.
pub fn settle(
    alloc: Global,
    names: u32,
    prelude: Program,
    source: Program,
) -> Result<Settled, Memory> {
    let mut fixities = Fixities::new(alloc, names)?;
    fixities.take_in(&prelude);
    fixities.take_in(&source);
    let mut settler = Settler {
        alloc,
        fixities,
        uneven: None,
        clash: None,
    };
    let mut decls = List::of(Vec::new(alloc));
    settler.program(prelude, &mut decls)?;
    settler.program(source, &mut decls)?;
    let mut numbering = Numbering { alloc, next: 0 };
    let program = numbering.program(decls)?;
    Ok(Settled {
        program,
        nodes: numbering.next,
        uneven: settler.uneven,
        clash: settler.clash,
    })
}
