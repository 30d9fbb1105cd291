use crate::declared::Tables;
use crate::faults::Faults;
use crate::name_set::NameSet;
use hb_base::{List, Memory, Name, Place, fixed};
use hb_resolved::Target;
use hb_tree::{
    Alt, Bind, Decl, Equation, Expr, ExprKind, FieldExpr, FieldInit, FieldPat, InitExpr, InitKind,
    Pat, PatKind, Stmt,
};
use std::alloc::Global;

/// Goes over the nodes of a settled program in node order, and tells the target of each. A local name changes what names
/// mean where it is bound, and `hidden` keeps what to put back behind its scope.
#[derive(Drop)]
pub(crate) struct Uses {
    tables: Tables,
    /// The names that are bound together.
    together: NameSet,
    hidden: Vec<(Name, Target)>,
    pub(crate) targets: List<Target>,
    /// The number of the next name of an `each`.
    next: u32,
    pub(crate) faults: Faults,
}

/// The number of a local definition: the node of its first row's expression.
fn number_of(bind: &Bind) -> u32 {
    match bind.rows.as_slice() {
        [first, ..] => first.body.node,
        [] => 0,
    }
}

/// The definition has parameters.
fn is_function(bind: &Bind) -> bool {
    match bind.rows.as_slice() {
        [first, ..] => first.pats.len() != 0,
        [] => false,
    }
}

impl Uses {
    /// No node is looked at, of so many. What is declared is in these tables, and these faults were met before.
    pub(crate) fn new(
        alloc: Global,
        names: u32,
        nodes: u32,
        tables: Tables,
        faults: Faults,
    ) -> Result<Uses, Memory> {
        Ok(Uses {
            tables,
            together: NameSet::new(alloc, names)?,
            hidden: Vec::new(alloc),
            targets: List::of(Vec::new(alloc)),
            next: nodes,
            faults,
        })
    }

    // What nodes use.

    fn no_name(&mut self) -> Result<(), Memory> {
        self.targets.push(Target::None)
    }

    fn variable(&mut self, at: Place, name: Name) -> Result<(), Memory> {
        if !self.tables.variables.is_known(name) {
            self.faults.put_unbound(at, name);
        }
        self.targets.push(self.tables.variables.of(name))
    }

    fn constructor(&mut self, at: Place, name: Name) -> Result<(), Memory> {
        if !self.tables.constructors.is_known(name) {
            self.faults.put_unbound(at, name);
        }
        self.targets.push(self.tables.constructors.of(name))
    }

    fn label(&mut self, at: Place, name: Name) {
        if !self.tables.labels.has(name) {
            self.faults.put_unbound(at, name);
        }
    }

    // How names are bound.

    fn mean(&mut self, name: Name, target: Target) -> Result<(), Memory> {
        self.hidden.push((name, self.tables.variables.of(name)))?;
        self.tables.variables.put(name, target);
        Ok(())
    }

    /// Puts back what names meant when so many were hidden.
    fn back_to(&mut self, mark: usize) {
        for _ in mark..self.hidden.len() {
            if let Some((name, target)) = self.hidden.pop() {
                self.tables.variables.put(name, target);
            }
        }
    }

    /// A name that is bound together with others, each once.
    fn once(&mut self, at: Place, name: Name) {
        if self.together.put(name) {
            self.faults.put_twice(at, name);
        }
    }

    #[cycle(binders)]
    fn bind_pat(&mut self, pat: &Pat) -> Result<(), Memory> {
        match &pat.kind {
            PatKind::Var(name) => {
                self.once(pat.place, *name);
                self.mean(*name, Target::Local(pat.node))
            }
            PatKind::Con(_, args) => self.bind_pats(args.as_slice()),
            PatKind::Fields(_, fields) => self.bind_fields(fields.as_slice()),
            PatKind::Pair(first, second) => {
                self.bind_pat(first)?;
                self.bind_pat(second)
            }
            PatKind::Any | PatKind::Number(_) | PatKind::Bits(_, _) | PatKind::Unit => Ok(()),
        }
    }

    #[cycle(binders)]
    #[tactic(auto, using(hb_settle::proofs::Parts::pat_falls))]
    fn bind_pats(&mut self, pats: &[Pat]) -> Result<(), Memory> {
        for pat in pats {
            self.bind_pat(pat)?;
        }
        Ok(())
    }

    #[cycle(binders)]
    #[tactic(auto, using(hb_settle::proofs::Parts::field_pat_falls))]
    fn bind_fields(&mut self, fields: &[FieldPat]) -> Result<(), Memory> {
        for field in fields {
            self.bind_pat(&field.pat)?;
        }
        Ok(())
    }

    /// Binds the variables of patterns.
    fn bind_row(&mut self, pats: &[Pat]) -> Result<(), Memory> {
        self.together.clear();
        self.bind_pats(pats)
    }

    /// Binds the variables of a pattern that stands alone.
    fn bind_alone(&mut self, pat: &Pat) -> Result<(), Memory> {
        self.together.clear();
        self.bind_pat(pat)
    }

    /// No definition of a block comes twice.
    fn once_each(&mut self, binds: &[Bind]) {
        self.together.clear();
        for bind in binds {
            self.once(bind.place, bind.name);
        }
    }

    fn bind(&mut self, bind: &Bind) -> Result<(), Memory> {
        self.mean(bind.name, Target::Local(number_of(bind)))
    }

    fn bind_all(&mut self, binds: &[Bind]) -> Result<(), Memory> {
        for bind in binds {
            self.bind(bind)?;
        }
        Ok(())
    }

    /// Binds the functions that stand at the front.
    fn bind_group(&mut self, binds: &[Bind]) -> Result<(), Memory> {
        for bind in binds {
            if !is_function(bind) {
                return Ok(());
            }
            self.bind(bind)?;
        }
        Ok(())
    }

    /// The names of a block mean nothing.
    fn hide(&mut self, binds: &[Bind]) -> Result<(), Memory> {
        for bind in binds {
            self.mean(bind.name, Target::None)?;
        }
        Ok(())
    }

    // Patterns.

    #[cycle(pattern_uses)]
    fn pat(&mut self, pat: &Pat) -> Result<(), Memory> {
        match &pat.kind {
            PatKind::Any | PatKind::Number(_) | PatKind::Bits(_, _) => self.no_name(),
            PatKind::Var(_) => self.targets.push(Target::Local(pat.node)),
            PatKind::Unit => self.constructor(pat.place, fixed::UNIT),
            PatKind::Con(name, args) => {
                self.pats(args.as_slice())?;
                self.constructor(pat.place, *name)
            }
            PatKind::Fields(name, fields) => {
                self.field_pats(fields.as_slice())?;
                self.constructor(pat.place, *name)
            }
            PatKind::Pair(first, second) => {
                self.pat(first)?;
                self.pat(second)?;
                self.constructor(pat.place, fixed::PAIR)
            }
        }
    }

    #[cycle(pattern_uses)]
    #[tactic(auto, using(hb_settle::proofs::Parts::pat_falls))]
    fn pats(&mut self, pats: &[Pat]) -> Result<(), Memory> {
        for pat in pats {
            self.pat(pat)?;
        }
        Ok(())
    }

    #[cycle(pattern_uses)]
    #[tactic(auto, using(hb_settle::proofs::Parts::field_pat_falls))]
    fn field_pats(&mut self, fields: &[FieldPat]) -> Result<(), Memory> {
        for field in fields {
            self.label(field.place, field.name);
            self.pat(&field.pat)?;
        }
        Ok(())
    }

    // Expressions.

    #[cycle(uses)]
    fn expr(&mut self, e: &Expr) -> Result<(), Memory> {
        match &e.kind {
            ExprKind::Var(name) => self.variable(e.place, *name),
            ExprKind::Con(name) => self.constructor(e.place, *name),
            ExprKind::Number(_) | ExprKind::Bits(_, _) => self.no_name(),
            ExprKind::Unit => self.constructor(e.place, fixed::UNIT),
            ExprKind::Apply(f, x) => {
                self.expr(f)?;
                self.expr(x)?;
                self.no_name()
            }
            ExprKind::If(test, then, other) => {
                self.expr(test)?;
                self.expr(then)?;
                self.expr(other)?;
                self.no_name()
            }
            ExprKind::Select(of, field) => {
                self.expr(of)?;
                self.label(e.place, *field);
                self.no_name()
            }
            ExprKind::Build(name, fields) => {
                self.fields(fields.as_slice())?;
                self.constructor(e.place, *name)
            }
            ExprKind::Update(of, fields) => {
                self.expr(of)?;
                self.fields(fields.as_slice())?;
                self.once_each_field(fields.as_slice());
                self.no_name()
            }
            _ => self.scope(e),
        }
    }

    /// An expression that may bind names.
    #[cycle(uses)]
    fn scope(&mut self, e: &Expr) -> Result<(), Memory> {
        let mark = self.hidden.len();
        match &e.kind {
            ExprKind::Lambda(pats, body) => {
                self.pats(pats.as_slice())?;
                self.bind_row(pats.as_slice())?;
                self.expr(body)?;
            }
            ExprKind::Let(local, body) => {
                self.block(local.as_slice())?;
                self.expr(body)?;
            }
            ExprKind::Case(of, alts) => {
                self.expr(of)?;
                self.alts(alts.as_slice())?;
            }
            ExprKind::Do(stmts) => self.stmts(stmts.as_slice())?,
            ExprKind::Run(operands, operators) => {
                self.exprs(operands.as_slice())?;
                self.exprs(operators.as_slice())?;
            }
            ExprKind::Pair(first, second) => {
                self.expr(first)?;
                self.expr(second)?;
            }
            _ => {}
        }
        self.back_to(mark);
        self.no_name()
    }

    #[cycle(uses)]
    #[tactic(auto, using(hb_settle::proofs::Parts::expr_falls))]
    fn exprs(&mut self, all: &[Expr]) -> Result<(), Memory> {
        for e in all {
            self.expr(e)?;
        }
        Ok(())
    }

    #[cycle(uses)]
    #[tactic(auto, using(hb_settle::proofs::Parts::field_falls))]
    fn fields(&mut self, all: &[FieldExpr]) -> Result<(), Memory> {
        for field in all {
            self.label(field.place, field.name);
            self.expr(&field.value)?;
        }
        Ok(())
    }

    fn once_each_field(&mut self, all: &[FieldExpr]) {
        self.together.clear();
        for field in all {
            self.once(field.place, field.name);
        }
    }

    #[cycle(uses)]
    #[tactic(auto, using(hb_settle::proofs::Parts::alt_falls))]
    fn alts(&mut self, all: &[Alt]) -> Result<(), Memory> {
        for alt in all {
            let mark = self.hidden.len();
            self.pat(&alt.pat)?;
            self.bind_alone(&alt.pat)?;
            self.expr(&alt.body)?;
            self.back_to(mark);
        }
        Ok(())
    }

    #[cycle(uses)]
    #[tactic(auto, using(hb_settle::proofs::Parts::stmt_falls))]
    fn stmts(&mut self, all: &[Stmt]) -> Result<(), Memory> {
        for stmt in all {
            self.stmt(stmt)?;
        }
        Ok(())
    }

    /// A statement, whose names are bound behind it.
    #[cycle(uses)]
    fn stmt(&mut self, stmt: &Stmt) -> Result<(), Memory> {
        match stmt {
            Stmt::Take(pat, e) => {
                self.pat(pat)?;
                self.expr(e)?;
                self.bind_alone(pat)
            }
            Stmt::Let(local) => self.block(local.as_slice()),
            Stmt::Do(e) => self.expr(e),
        }
    }

    /// The definitions of a block, whose names are bound behind them.
    #[cycle(uses)]
    fn block(&mut self, binds: &[Bind]) -> Result<(), Memory> {
        self.once_each(binds);
        self.hide(binds)?;
        self.binds(binds)
    }

    /// The definitions of a block whose names mean nothing: each one sees those before it, and functions that stand next to
    /// each other see one another.
    #[cycle(uses)]
    #[tactic(auto, using(hb_settle::proofs::Parts::bind_falls))]
    fn binds(&mut self, all: &[Bind]) -> Result<(), Memory> {
        let mut grouped = false;
        for at in 0..all.len() {
            let bind = &all[at];
            if !is_function(bind) {
                self.rows(bind.rows.as_slice())?;
                self.bind(bind)?;
                grouped = false;
            } else {
                if !grouped {
                    self.bind_group(&all[at..])?;
                    grouped = true;
                }
                self.rows(bind.rows.as_slice())?;
            }
        }
        Ok(())
    }

    #[cycle(uses)]
    #[tactic(auto, using(hb_settle::proofs::Parts::row_falls))]
    fn rows(&mut self, all: &[Equation]) -> Result<(), Memory> {
        for row in all {
            self.row(row)?;
        }
        Ok(())
    }

    /// The names of a row's patterns are known in it, and those of its `where` in its expression too.
    #[cycle(uses)]
    fn row(&mut self, row: &Equation) -> Result<(), Memory> {
        let outside = self.hidden.len();
        self.pats(row.pats.as_slice())?;
        self.bind_row(row.pats.as_slice())?;
        let inside = self.hidden.len();
        self.once_each(row.local.as_slice());
        self.bind_all(row.local.as_slice())?;
        self.expr(&row.body)?;
        self.back_to(inside);
        self.hide(row.local.as_slice())?;
        self.binds(row.local.as_slice())?;
        self.back_to(outside);
        Ok(())
    }

    // Declarations.

    /// The fields of an initialiser are known, and each comes once.
    fn init_labels(&mut self, all: &[FieldInit]) {
        self.together.clear();
        for field in all {
            self.label(field.name.place, field.name.name);
            self.once(field.name.place, field.name.name);
        }
    }

    #[cycle(starts)]
    fn init(&mut self, init: &InitExpr) -> Result<(), Memory> {
        match &init.kind {
            InitKind::Each(index, part) => {
                let mark = self.hidden.len();
                self.mean(index.name, Target::Local(self.next))?;
                self.next = self.next.wrapping_add(1);
                self.init(part)?;
                self.back_to(mark);
                Ok(())
            }
            InitKind::Fields(fields) => {
                self.init_labels(fields.as_slice());
                self.field_inits(fields.as_slice())
            }
            InitKind::Cell(e) => self.expr(e),
        }
    }

    #[cycle(starts)]
    #[tactic(auto, using(hb_settle::proofs::Parts::init_falls))]
    fn field_inits(&mut self, all: &[FieldInit]) -> Result<(), Memory> {
        for field in all {
            self.init(&field.init)?;
        }
        Ok(())
    }

    /// The equations of an instance, whose names are bound nowhere.
    fn methods(&mut self, binds: &[Bind]) -> Result<(), Memory> {
        self.once_each(binds);
        for bind in binds {
            self.rows(bind.rows.as_slice())?;
        }
        Ok(())
    }

    /// Goes over all declarations.
    pub(crate) fn decls(&mut self, decls: &List<Decl>) -> Result<(), Memory> {
        for decl in decls.as_slice() {
            match decl {
                Decl::Equation(bind) => self.rows(bind.rows.as_slice())?,
                Decl::Area(_, _, Some(init), _, _) => self.init(init)?,
                Decl::Instance(_, _, _, _, binds) => self.methods(binds.as_slice())?,
                _ => {}
            }
        }
        Ok(())
    }
}
