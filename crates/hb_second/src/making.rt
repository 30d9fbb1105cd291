//! Trees for tests: each declaration and each statement stands on a line of its own.
use hb_base::{Dir, List, Name, Names, Place, fixed};
use hb_tree::{Bind, Decl, Equation, Expr, NameAt, Pat, Program, Sig, Stmt, TypeExpr};
use std::alloc::Global;
use std::mem;
use std::test::Fail;

/// A tree in the making.
#[derive(Drop)]
pub struct Making {
    alloc: Global,
    names: Names,
    line: u32,
    opened: Place,
    decls: List<Decl>,
    statements: List<Stmt>,
}

/// A list of one item.
fn one<T: Drop>(alloc: Global, item: T) -> Result<List<T>, Fail> {
    let mut all = List::of(Vec::new(alloc));
    all.push(item)?;
    Ok(all)
}

impl Making {
    pub fn new(alloc: Global) -> Result<Making, Fail> {
        Ok(Making {
            alloc,
            names: Names::new(alloc)?,
            line: 0,
            opened: Place { line: 0, col: 0 },
            decls: List::of(Vec::new(alloc)),
            statements: List::of(Vec::new(alloc)),
        })
    }

    /// The beginning of the line.
    pub fn place(&self) -> Place {
        Place {
            line: self.line,
            col: 1,
        }
    }

    fn next_line(&mut self) -> Place {
        self.line = self.line.wrapping_add(1);
        self.place()
    }

    fn name(&mut self, text: &[u8]) -> Result<Name, Fail> {
        if self.names.count() >= 1000 {
            return Err(Fail::from("too many names"));
        }
        let name = self.names.intern(text)?;
        Ok(name)
    }

    /// `port NAME :: WAY (Bit 8) at NUMBER`
    pub fn port(&mut self, text: &[u8], way: Dir, number: u128) -> Result<(), Fail> {
        let place = self.next_line();
        let name = self.name(text)?;
        let bit = TypeExpr::con(place, fixed::BIT);
        let of = TypeExpr::apply(self.alloc, place, bit, TypeExpr::number(place, 8))?;
        let port = Decl::Port(place, NameAt { place, name }, way, of, 32, number);
        self.decls.push(port)?;
        Ok(())
    }

    /// `main :: M Unit`
    pub fn signature(&mut self) -> Result<(), Fail> {
        let place = self.next_line();
        let action = TypeExpr::con(place, fixed::M);
        let body = TypeExpr::apply(self.alloc, place, action, TypeExpr::con(place, fixed::UNIT))?;
        let name = NameAt {
            place,
            name: fixed::MAIN,
        };
        let sig = Sig {
            place,
            names: one(self.alloc, name)?,
            context: List::of(Vec::new(self.alloc)),
            body,
        };
        self.decls.push(Decl::Sig(sig))?;
        Ok(())
    }

    /// `main = do`
    pub fn open(&mut self) {
        self.opened = self.next_line();
    }

    /// The end of the `do`.
    pub fn close(&mut self) -> Result<(), Fail> {
        let empty = List::of(Vec::new(self.alloc));
        let statements = mem::replace(&mut self.statements, empty);
        let row = Equation {
            pats: List::of(Vec::new(self.alloc)),
            first: self.opened,
            body: Expr::block(self.opened, statements),
            local: List::of(Vec::new(self.alloc)),
        };
        let bind = Bind {
            name: fixed::MAIN,
            place: self.opened,
            rows: one(self.alloc, row)?,
        };
        self.decls.push(Decl::Equation(bind))?;
        Ok(())
    }

    pub fn variable(&mut self, text: &[u8]) -> Result<Expr, Fail> {
        let name = self.name(text)?;
        Ok(Expr::var(self.place(), name))
    }

    /// `f x`
    fn call(&mut self, f: Expr, x: Expr) -> Result<Expr, Fail> {
        let call = Expr::apply(self.alloc, self.place(), f, x)?;
        Ok(call)
    }

    /// `NAME <- readPort PORT`
    pub fn read(&mut self, text: &[u8], port: &[u8]) -> Result<(), Fail> {
        let place = self.next_line();
        let name = self.name(text)?;
        let f = self.variable(b"readPort")?;
        let x = self.variable(port)?;
        let call = self.call(f, x)?;
        self.statements
            .push(Stmt::Take(Pat::var(place, name), call))?;
        Ok(())
    }

    /// `writePort PORT ARGUMENT`
    pub fn write(&mut self, port: &[u8], argument: Expr) -> Result<(), Fail> {
        self.next_line();
        let f = self.variable(b"writePort")?;
        let x = self.variable(port)?;
        let half = self.call(f, x)?;
        let call = self.call(half, argument)?;
        self.statements.push(Stmt::Do(call))?;
        Ok(())
    }

    /// `NAME - LITERAL`
    pub fn difference(&mut self, text: &[u8], value: u128) -> Result<Expr, Fail> {
        let place = self.place();
        let mut operands = one(self.alloc, self.variable(text)?)?;
        operands.push(Expr::bits(place, 8, value))?;
        let operators = one(self.alloc, self.variable(b"-")?)?;
        Ok(Expr::run(place, operands, operators))
    }

    pub fn done(self) -> (Program, Names) {
        let Making { names, decls, .. } = self;
        (Program { decls }, names)
    }
}
