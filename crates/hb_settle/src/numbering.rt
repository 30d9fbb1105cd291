use hb_base::{List, Memory, Place};
use hb_tree::{
    Alt, Bind, Equation, Expr, ExprKind, FieldExpr, FieldInit, FieldPat, InitExpr, InitKind, Pat,
    PatKind, Stmt,
};
use std::alloc::Global;

/// Numbers nodes in node order: parts come before the whole, a head before its arguments, and the rest from left to right.
/// `next` is the number of the next node.
#[derive(Drop)]
pub(crate) struct Numbering {
    pub(crate) alloc: Global,
    pub(crate) next: u32,
}

impl Numbering {
    /// The next number. There is no memory for more nodes than there are numbers.
    fn number(&mut self) -> Result<u32, Memory> {
        let number = self.next;
        match number.checked_add(1) {
            Some(next) => {
                self.next = next;
                Ok(number)
            }
            None => Err(Memory),
        }
    }

    /// A pattern whose parts are numbered.
    fn whole_pat(&mut self, place: Place, kind: PatKind) -> Result<Pat, Memory> {
        let node = self.number()?;
        Ok(Pat { node, place, kind })
    }

    #[cycle(numbering_patterns)]
    fn pat(&mut self, pat: &Pat) -> Result<Pat, Memory> {
        let at = pat.place;
        match &pat.kind {
            PatKind::Any => self.whole_pat(at, PatKind::Any),
            PatKind::Var(name) => self.whole_pat(at, PatKind::Var(*name)),
            PatKind::Number(value) => self.whole_pat(at, PatKind::Number(*value)),
            PatKind::Bits(width, value) => self.whole_pat(at, PatKind::Bits(*width, *value)),
            PatKind::Unit => self.whole_pat(at, PatKind::Unit),
            PatKind::Con(name, args) => {
                let args = self.pats(args.as_slice())?;
                self.whole_pat(at, PatKind::Con(*name, args))
            }
            PatKind::Fields(name, fields) => {
                let fields = self.field_pats(fields.as_slice())?;
                self.whole_pat(at, PatKind::Fields(*name, fields))
            }
            PatKind::Pair(first, second) => {
                let first = self.pat(first)?;
                let second = self.pat(second)?;
                let first = Box::new(self.alloc, first)?;
                let second = Box::new(self.alloc, second)?;
                self.whole_pat(at, PatKind::Pair(first, second))
            }
        }
    }

    #[cycle(numbering_patterns)]
    #[tactic(auto, using(crate::proofs::Parts::pat_falls))]
    fn pats(&mut self, all: &[Pat]) -> Result<List<Pat>, Memory> {
        let mut done = List::of(Vec::new(self.alloc));
        for pat in all {
            let pat = self.pat(pat)?;
            done.push(pat)?;
        }
        Ok(done)
    }

    #[cycle(numbering_patterns)]
    #[tactic(auto, using(crate::proofs::Parts::field_pat_falls))]
    fn field_pats(&mut self, all: &[FieldPat]) -> Result<List<FieldPat>, Memory> {
        let mut done = List::of(Vec::new(self.alloc));
        for field in all {
            let pat = self.pat(&field.pat)?;
            done.push(FieldPat {
                place: field.place,
                name: field.name,
                pat,
            })?;
        }
        Ok(done)
    }

    /// An expression whose parts are numbered.
    fn whole(&mut self, place: Place, kind: ExprKind) -> Result<Expr, Memory> {
        let node = self.number()?;
        Ok(Expr { node, place, kind })
    }

    #[cycle(numbering)]
    fn boxed(&mut self, e: &Expr) -> Result<Box<Expr>, Memory> {
        let e = self.expr(e)?;
        Ok(Box::new(self.alloc, e)?)
    }

    #[cycle(numbering)]
    pub(crate) fn expr(&mut self, e: &Expr) -> Result<Expr, Memory> {
        let at = e.place;
        match &e.kind {
            ExprKind::Var(name) => self.whole(at, ExprKind::Var(*name)),
            ExprKind::Con(name) => self.whole(at, ExprKind::Con(*name)),
            ExprKind::Number(value) => self.whole(at, ExprKind::Number(*value)),
            ExprKind::Bits(width, value) => self.whole(at, ExprKind::Bits(*width, *value)),
            ExprKind::Unit => self.whole(at, ExprKind::Unit),
            ExprKind::Apply(f, x) => {
                let f = self.boxed(f)?;
                let x = self.boxed(x)?;
                self.whole(at, ExprKind::Apply(f, x))
            }
            ExprKind::Pair(first, second) => {
                let first = self.boxed(first)?;
                let second = self.boxed(second)?;
                self.whole(at, ExprKind::Pair(first, second))
            }
            ExprKind::Run(operands, operators) => {
                let operands = self.exprs(operands.as_slice())?;
                let operators = self.exprs(operators.as_slice())?;
                self.whole(at, ExprKind::Run(operands, operators))
            }
            _ => self.form(e),
        }
    }

    /// An expression of another form.
    #[cycle(numbering)]
    fn form(&mut self, e: &Expr) -> Result<Expr, Memory> {
        let at = e.place;
        match &e.kind {
            ExprKind::Lambda(pats, body) => {
                let pats = self.pats(pats.as_slice())?;
                let body = self.boxed(body)?;
                self.whole(at, ExprKind::Lambda(pats, body))
            }
            ExprKind::Let(local, body) => {
                let local = self.binds(local.as_slice())?;
                let body = self.boxed(body)?;
                self.whole(at, ExprKind::Let(local, body))
            }
            ExprKind::If(test, then, other) => {
                let test = self.boxed(test)?;
                let then = self.boxed(then)?;
                let other = self.boxed(other)?;
                self.whole(at, ExprKind::If(test, then, other))
            }
            ExprKind::Case(of, alts) => {
                let of = self.boxed(of)?;
                let alts = self.alts(alts.as_slice())?;
                self.whole(at, ExprKind::Case(of, alts))
            }
            ExprKind::Do(stmts) => {
                let stmts = self.stmts(stmts.as_slice())?;
                self.whole(at, ExprKind::Do(stmts))
            }
            _ => self.field_form(e),
        }
    }

    /// An expression that speaks of fields.
    #[cycle(numbering)]
    fn field_form(&mut self, e: &Expr) -> Result<Expr, Memory> {
        let at = e.place;
        match &e.kind {
            ExprKind::Select(of, field) => {
                let of = self.boxed(of)?;
                self.whole(at, ExprKind::Select(of, *field))
            }
            ExprKind::Build(name, fields) => {
                let fields = self.fields(fields.as_slice())?;
                self.whole(at, ExprKind::Build(*name, fields))
            }
            ExprKind::Update(of, fields) => {
                let of = self.boxed(of)?;
                let fields = self.fields(fields.as_slice())?;
                self.whole(at, ExprKind::Update(of, fields))
            }
            _ => self.whole(at, ExprKind::Unit),
        }
    }

    #[cycle(numbering)]
    #[tactic(auto, using(crate::proofs::Parts::expr_falls))]
    fn exprs(&mut self, all: &[Expr]) -> Result<List<Expr>, Memory> {
        let mut done = List::of(Vec::new(self.alloc));
        for e in all {
            let e = self.expr(e)?;
            done.push(e)?;
        }
        Ok(done)
    }

    #[cycle(numbering)]
    #[tactic(auto, using(crate::proofs::Parts::field_falls))]
    fn fields(&mut self, all: &[FieldExpr]) -> Result<List<FieldExpr>, Memory> {
        let mut done = List::of(Vec::new(self.alloc));
        for field in all {
            let value = self.expr(&field.value)?;
            done.push(FieldExpr {
                place: field.place,
                name: field.name,
                value,
            })?;
        }
        Ok(done)
    }

    #[cycle(numbering)]
    #[tactic(auto, using(crate::proofs::Parts::alt_falls))]
    fn alts(&mut self, all: &[Alt]) -> Result<List<Alt>, Memory> {
        let mut done = List::of(Vec::new(self.alloc));
        for alt in all {
            let pat = self.pat(&alt.pat)?;
            let body = self.expr(&alt.body)?;
            done.push(Alt { pat, body })?;
        }
        Ok(done)
    }

    #[cycle(numbering)]
    #[tactic(auto, using(crate::proofs::Parts::stmt_falls))]
    fn stmts(&mut self, all: &[Stmt]) -> Result<List<Stmt>, Memory> {
        let mut done = List::of(Vec::new(self.alloc));
        for stmt in all {
            let stmt = self.stmt(stmt)?;
            done.push(stmt)?;
        }
        Ok(done)
    }

    #[cycle(numbering)]
    fn stmt(&mut self, stmt: &Stmt) -> Result<Stmt, Memory> {
        match stmt {
            Stmt::Take(pat, e) => {
                let pat = self.pat(pat)?;
                let e = self.expr(e)?;
                Ok(Stmt::Take(pat, e))
            }
            Stmt::Let(local) => {
                let local = self.binds(local.as_slice())?;
                Ok(Stmt::Let(local))
            }
            Stmt::Do(e) => {
                let e = self.expr(e)?;
                Ok(Stmt::Do(e))
            }
        }
    }

    #[cycle(numbering)]
    #[tactic(auto, using(crate::proofs::Parts::bind_falls))]
    pub(crate) fn binds(&mut self, all: &[Bind]) -> Result<List<Bind>, Memory> {
        let mut done = List::of(Vec::new(self.alloc));
        for bind in all {
            let rows = self.rows(bind.rows.as_slice())?;
            done.push(Bind {
                name: bind.name,
                place: bind.place,
                rows,
            })?;
        }
        Ok(done)
    }

    #[cycle(numbering)]
    #[tactic(auto, using(crate::proofs::Parts::row_falls))]
    pub(crate) fn rows(&mut self, all: &[Equation]) -> Result<List<Equation>, Memory> {
        let mut done = List::of(Vec::new(self.alloc));
        for row in all {
            let row = self.row(row)?;
            done.push(row)?;
        }
        Ok(done)
    }

    #[cycle(numbering)]
    fn row(&mut self, row: &Equation) -> Result<Equation, Memory> {
        let pats = self.pats(row.pats.as_slice())?;
        let body = self.expr(&row.body)?;
        let local = self.binds(row.local.as_slice())?;
        Ok(Equation {
            pats,
            first: row.first,
            body,
            local,
        })
    }

    #[cycle(numbering_starts)]
    pub(crate) fn init(&mut self, init: &InitExpr) -> Result<InitExpr, Memory> {
        match &init.kind {
            InitKind::Each(index, part) => {
                let part = self.init(part)?;
                InitExpr::each(self.alloc, init.place, *index, part)
            }
            InitKind::Fields(fields) => {
                let fields = self.field_inits(fields.as_slice())?;
                Ok(InitExpr::fields(init.place, fields))
            }
            InitKind::Cell(e) => {
                let e = self.expr(e)?;
                Ok(InitExpr::cell(init.place, e))
            }
        }
    }

    #[cycle(numbering_starts)]
    #[tactic(auto, using(crate::proofs::Parts::init_falls))]
    fn field_inits(&mut self, all: &[FieldInit]) -> Result<List<FieldInit>, Memory> {
        let mut done = List::of(Vec::new(self.alloc));
        for field in all {
            let init = self.init(&field.init)?;
            done.push(FieldInit {
                name: field.name,
                init,
            })?;
        }
        Ok(done)
    }
}
