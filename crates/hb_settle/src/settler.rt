use crate::copies::{copy_pat, copy_pats};
use crate::fixities::Fixities;
use crate::order::earlier;
use crate::rows::Rows;
use crate::runs::{applied, grouped, paired};
use hb_base::{List, Memory, Place};
use hb_fixity::Grouped;
use hb_tree::{
    Alt, Bind, Equation, Expr, ExprKind, FieldExpr, FieldInit, InitExpr, InitKind, NameAt, Stmt,
};
use std::alloc::Global;

/// Settles expressions. `uneven` is the earliest row so far that has another number of patterns than the first row of its
/// definition, and `clash` the earliest operator so far at which a run groups in no way.
#[derive(Drop)]
pub(crate) struct Settler {
    pub(crate) alloc: Global,
    pub(crate) fixities: Fixities,
    pub(crate) uneven: Option<NameAt>,
    pub(crate) clash: Option<NameAt>,
}

impl Settler {
    /// The tree of a run. A clash is kept where it is the earliest.
    fn tree_of(&mut self, grouped: Grouped) -> Expr {
        let Grouped { tree, clash } = grouped;
        if let Some(operator) = clash {
            let met = NameAt {
                place: operator.place,
                name: operator.name,
            };
            self.clash = earlier(self.clash, met);
        }
        tree
    }

    /// Operands with operators between them.
    fn run(
        &mut self,
        at: Place,
        operands: Vec<Expr>,
        operators: &List<Expr>,
    ) -> Result<Expr, Memory> {
        match grouped(self.alloc, &self.fixities, operands, operators)? {
            Some(grouped) => Ok(self.tree_of(grouped)),
            None => Ok(Expr::unit(at)),
        }
    }

    /// An expression without runs and pairs.
    #[cycle(settling)]
    pub(crate) fn expr(&mut self, e: &Expr) -> Result<Expr, Memory> {
        let alloc = self.alloc;
        let at = e.place;
        match &e.kind {
            ExprKind::Var(name) => Ok(Expr::var(at, *name)),
            ExprKind::Con(name) => Ok(Expr::con(at, *name)),
            ExprKind::Number(value) => Ok(Expr::number(at, *value)),
            ExprKind::Bits(width, value) => Ok(Expr::bits(at, *width, *value)),
            ExprKind::Unit => Ok(Expr::unit(at)),
            ExprKind::Apply(f, x) => {
                let f = self.expr(f)?;
                let x = self.expr(x)?;
                applied(alloc, f, x)
            }
            ExprKind::Pair(first, second) => {
                let first = self.expr(first)?;
                let second = self.expr(second)?;
                paired(alloc, at, first, second)
            }
            ExprKind::Run(operands, operators) => {
                let operands = self.exprs(operands.as_slice())?;
                self.run(at, operands, operators)
            }
            _ => self.form(e),
        }
    }

    /// An expression of another form.
    #[cycle(settling)]
    fn form(&mut self, e: &Expr) -> Result<Expr, Memory> {
        let alloc = self.alloc;
        let at = e.place;
        match &e.kind {
            ExprKind::Lambda(pats, body) => {
                let body = self.expr(body)?;
                let pats = copy_pats(alloc, pats.as_slice())?;
                Expr::lambda(alloc, at, pats, body)
            }
            ExprKind::Let(local, body) => {
                let local = self.binds(local.as_slice())?;
                let body = self.expr(body)?;
                Expr::let_in(alloc, at, local, body)
            }
            ExprKind::If(test, then, other) => {
                let test = self.expr(test)?;
                let then = self.expr(then)?;
                let other = self.expr(other)?;
                Expr::if_else(alloc, at, test, then, other)
            }
            ExprKind::Case(of, alts) => {
                let of = self.expr(of)?;
                let alts = self.alts(alts.as_slice())?;
                Expr::case(alloc, at, of, alts)
            }
            ExprKind::Do(stmts) => {
                let stmts = self.stmts(stmts.as_slice())?;
                Ok(Expr::block(at, stmts))
            }
            _ => self.field_form(e),
        }
    }

    /// An expression that speaks of fields.
    #[cycle(settling)]
    fn field_form(&mut self, e: &Expr) -> Result<Expr, Memory> {
        let alloc = self.alloc;
        let at = e.place;
        match &e.kind {
            ExprKind::Select(of, field) => {
                let of = self.expr(of)?;
                Expr::select(alloc, at, of, *field)
            }
            ExprKind::Build(name, fields) => {
                let fields = self.fields(fields.as_slice())?;
                Ok(Expr::build(at, *name, fields))
            }
            ExprKind::Update(of, fields) => {
                let of = self.expr(of)?;
                let fields = self.fields(fields.as_slice())?;
                Expr::update(alloc, at, of, fields)
            }
            _ => Ok(Expr::unit(at)),
        }
    }

    #[cycle(settling)]
    #[tactic(auto, using(crate::proofs::Parts::expr_falls))]
    fn exprs(&mut self, all: &[Expr]) -> Result<Vec<Expr>, Memory> {
        let mut done = Vec::new(self.alloc);
        for e in all {
            let e = self.expr(e)?;
            done.push(e)?;
        }
        Ok(done)
    }

    #[cycle(settling)]
    #[tactic(auto, using(crate::proofs::Parts::field_falls))]
    fn fields(&mut self, all: &[FieldExpr]) -> Result<List<FieldExpr>, Memory> {
        let mut done = List::of(Vec::new(self.alloc));
        for field in all {
            let value = self.expr(&field.value)?;
            done.push(FieldExpr {
                place: field.place,
                name: field.name,
                value,
            })?;
        }
        Ok(done)
    }

    #[cycle(settling)]
    #[tactic(auto, using(crate::proofs::Parts::alt_falls))]
    fn alts(&mut self, all: &[Alt]) -> Result<List<Alt>, Memory> {
        let mut done = List::of(Vec::new(self.alloc));
        for alt in all {
            let body = self.expr(&alt.body)?;
            let pat = copy_pat(self.alloc, &alt.pat)?;
            done.push(Alt { pat, body })?;
        }
        Ok(done)
    }

    #[cycle(settling)]
    #[tactic(auto, using(crate::proofs::Parts::stmt_falls))]
    fn stmts(&mut self, all: &[Stmt]) -> Result<List<Stmt>, Memory> {
        let mut done = List::of(Vec::new(self.alloc));
        for stmt in all {
            let stmt = self.stmt(stmt)?;
            done.push(stmt)?;
        }
        Ok(done)
    }

    #[cycle(settling)]
    fn stmt(&mut self, stmt: &Stmt) -> Result<Stmt, Memory> {
        match stmt {
            Stmt::Take(pat, e) => {
                let e = self.expr(e)?;
                let pat = copy_pat(self.alloc, pat)?;
                Ok(Stmt::Take(pat, e))
            }
            Stmt::Let(local) => {
                let local = self.binds(local.as_slice())?;
                Ok(Stmt::Let(local))
            }
            Stmt::Do(e) => {
                let e = self.expr(e)?;
                Ok(Stmt::Do(e))
            }
        }
    }

    /// The definitions of a block.
    #[cycle(settling)]
    #[tactic(auto, using(crate::proofs::Parts::bind_falls))]
    pub(crate) fn binds(&mut self, all: &[Bind]) -> Result<List<Bind>, Memory> {
        let mut done = Rows::new(self.alloc);
        for bind in all {
            let rows = self.rows(bind.rows.as_slice())?;
            let next = Bind {
                name: bind.name,
                place: bind.place,
                rows,
            };
            done = done.put(next, &mut self.uneven)?;
        }
        done.end()
    }

    #[cycle(settling)]
    #[tactic(auto, using(crate::proofs::Parts::row_falls))]
    pub(crate) fn rows(&mut self, all: &[Equation]) -> Result<List<Equation>, Memory> {
        let mut done = List::of(Vec::new(self.alloc));
        for row in all {
            let row = self.row(row)?;
            done.push(row)?;
        }
        Ok(done)
    }

    #[cycle(settling)]
    fn row(&mut self, row: &Equation) -> Result<Equation, Memory> {
        let body = self.expr(&row.body)?;
        let local = self.binds(row.local.as_slice())?;
        let pats = copy_pats(self.alloc, row.pats.as_slice())?;
        Ok(Equation {
            pats,
            first: row.first,
            body,
            local,
        })
    }

    /// An initialiser.
    #[cycle(starting)]
    pub(crate) fn init(&mut self, init: &InitExpr) -> Result<InitExpr, Memory> {
        match &init.kind {
            InitKind::Each(index, part) => {
                let part = self.init(part)?;
                InitExpr::each(self.alloc, init.place, *index, part)
            }
            InitKind::Fields(fields) => {
                let fields = self.field_inits(fields.as_slice())?;
                Ok(InitExpr::fields(init.place, fields))
            }
            InitKind::Cell(e) => {
                let e = self.expr(e)?;
                Ok(InitExpr::cell(init.place, e))
            }
        }
    }

    #[cycle(starting)]
    #[tactic(auto, using(crate::proofs::Parts::init_falls))]
    fn field_inits(&mut self, all: &[FieldInit]) -> Result<List<FieldInit>, Memory> {
        let mut done = List::of(Vec::new(self.alloc));
        for field in all {
            let init = self.init(&field.init)?;
            done.push(FieldInit {
                name: field.name,
                init,
            })?;
        }
        Ok(done)
    }
}
