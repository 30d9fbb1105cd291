//! The texts of expressions.

use crate::trees::Printer;
use hb_tree::{Alt, Bind, Equation, Expr, ExprKind, FieldExpr, Stmt};
use std::test::Fail;

impl Printer {
    #[cycle(expression_texts)]
    pub fn expr(&mut self, e: &Expr) -> Result<(), Fail> {
        self.at(e.place, ":")?;
        match &e.kind {
            ExprKind::Var(name) | ExprKind::Con(name) => self.name(*name),
            ExprKind::Number(number) => self.number(*number),
            ExprKind::Bits(width, number) => self.bits(*width, *number),
            ExprKind::Unit => self.put("()"),
            ExprKind::Apply(f, x) => {
                self.put("(@ ")?;
                self.expr(f)?;
                self.put(" ")?;
                self.expr(x)?;
                self.put(")")
            }
            ExprKind::Pair(a, b) => {
                self.put("(, ")?;
                self.expr(a)?;
                self.put(" ")?;
                self.expr(b)?;
                self.put(")")
            }
            ExprKind::If(test, then, other) => {
                self.put("(if ")?;
                self.expr(test)?;
                self.put(" ")?;
                self.expr(then)?;
                self.put(" ")?;
                self.expr(other)?;
                self.put(")")
            }
            ExprKind::Select(of, field) => {
                self.put("(. ")?;
                self.expr(of)?;
                self.put(" ")?;
                self.name(*field)?;
                self.put(")")
            }
            _ => self.listed(e),
        }
    }

    /// An expression with a list of parts, behind its place.
    #[cycle(expression_texts)]
    pub fn listed(&mut self, e: &Expr) -> Result<(), Fail> {
        match &e.kind {
            ExprKind::Lambda(pats, body) => {
                self.put("(\\")?;
                self.pats(pats.as_slice())?;
                self.put(" ")?;
                self.expr(body)?;
                self.put(")")
            }
            ExprKind::Let(binds, body) => {
                self.put("(let (")?;
                let mut first = true;
                for bind in binds.as_slice() {
                    if !first {
                        self.put(" ")?;
                    }
                    first = false;
                    self.bind(bind)?;
                }
                self.put(") ")?;
                self.expr(body)?;
                self.put(")")
            }
            ExprKind::Case(of, alts) => {
                self.put("(case ")?;
                self.expr(of)?;
                for alt in alts.as_slice() {
                    self.alt(alt)?;
                }
                self.put(")")
            }
            ExprKind::Do(all) => {
                self.put("(do")?;
                for stmt in all.as_slice() {
                    self.stmt(stmt)?;
                }
                self.put(")")
            }
            _ => self.run_or_fields(e),
        }
    }

    /// A run, a construction or an update, behind its place.
    #[cycle(expression_texts)]
    pub fn run_or_fields(&mut self, e: &Expr) -> Result<(), Fail> {
        match &e.kind {
            ExprKind::Run(operands, operators) => {
                let mut operators = operators.as_slice().iter();
                self.put("{")?;
                for operand in operands.as_slice() {
                    self.expr(operand)?;
                    if let Some(operator) = operators.next() {
                        self.operator(operator)?;
                    }
                }
                self.put("}")
            }
            ExprKind::Build(name, fields) => {
                self.put("[")?;
                self.name(*name)?;
                for field in fields.as_slice() {
                    self.field(field)?;
                }
                self.put("]")
            }
            ExprKind::Update(of, fields) => {
                self.put("(update ")?;
                self.expr(of)?;
                for field in fields.as_slice() {
                    self.field(field)?;
                }
                self.put(")")
            }
            _ => self.put("?"),
        }
    }

    /// An operator, with a space on each side.
    pub fn operator(&mut self, operator: &Expr) -> Result<(), Fail> {
        self.put(" ")?;
        self.at(operator.place, ":")?;
        match operator.kind {
            ExprKind::Var(name) => self.name(name)?,
            _ => self.put("?")?,
        }
        self.put(" ")
    }

    #[cycle(expression_texts)]
    pub fn field(&mut self, field: &FieldExpr) -> Result<(), Fail> {
        self.put(" (")?;
        self.at(field.place, ":")?;
        self.name(field.name)?;
        self.put(" ")?;
        self.expr(&field.value)?;
        self.put(")")
    }

    #[cycle(expression_texts)]
    pub fn alt(&mut self, alt: &Alt) -> Result<(), Fail> {
        self.put(" (")?;
        self.pat(&alt.pat)?;
        self.put(" ")?;
        self.expr(&alt.body)?;
        self.put(")")
    }

    #[cycle(expression_texts)]
    pub fn stmt(&mut self, stmt: &Stmt) -> Result<(), Fail> {
        match stmt {
            Stmt::Take(pat, e) => {
                self.put(" (<- ")?;
                self.pat(pat)?;
                self.put(" ")?;
                self.expr(e)?;
                self.put(")")
            }
            Stmt::Let(binds) => {
                self.put(" (let (")?;
                let mut first = true;
                for bind in binds.as_slice() {
                    if !first {
                        self.put(" ")?;
                    }
                    first = false;
                    self.bind(bind)?;
                }
                self.put("))")
            }
            Stmt::Do(e) => {
                self.put(" ")?;
                self.expr(e)
            }
        }
    }

    #[cycle(expression_texts)]
    pub fn bind(&mut self, bind: &Bind) -> Result<(), Fail> {
        self.at(bind.place, ":")?;
        self.put("(= ")?;
        self.name(bind.name)?;
        for row in bind.rows.as_slice() {
            self.row(row)?;
        }
        self.put(")")
    }

    #[cycle(expression_texts)]
    pub fn row(&mut self, row: &Equation) -> Result<(), Fail> {
        self.pats(row.pats.as_slice())?;
        self.put(" ")?;
        self.at(row.first, "|")?;
        self.expr(&row.body)?;
        if row.local.len() == 0 {
            return Ok(());
        }
        self.put(" (")?;
        let mut first = true;
        for bind in row.local.as_slice() {
            if !first {
                self.put(" ")?;
            }
            first = false;
            self.bind(bind)?;
        }
        self.put(")")
    }
}
