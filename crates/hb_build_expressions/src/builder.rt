ghost use Rattle.std.specs.Prelude.{◌≡◌, [], ◌∷◌, Some, None, IfOk};
ghost use Rattle.hb_build.specs.Building.{Stepped};
ghost use Rattle.hb_build.specs.PatternSteps.{pat_off, pats_off, stepped as pat_stepped};
ghost use Rattle.hb_build_expressions.specs.Taking.{off, two_off, run_off};
ghost use Rattle.hb_build_expressions.specs.ExpressionSteps.{start, stepped, with_exprs, in_patterns, of_two, of_if, of_select, of_run, of_lambda, of_let, of_case, of_do, of_build, of_update, of_field, of_alternative, of_take, of_let_stmt, of_do_stmt, of_row, lone_expr};
ghost use Rattle.hb_tree.specs.Expressions as tree;

use crate::taking::{lone, pop_two, take_off, take_run};
use hb_base::{List, Memory, Name, Place};
use hb_build::PatBuilder;
use hb_read_expressions::ExprNode;
use hb_read_patterns::PatNode;
use hb_stack::Stack;
use hb_tree::{Alt, Bind, Equation, Expr, FieldExpr, Stmt};
use std::alloc::Global;

/// The parts that are built so far, each kind on a stack of its own.
#[derive(Debug, Drop)]
pub struct ExprBuilder {
    pub pats: PatBuilder,
    pub exprs: Stack<Expr>,
    pub fields: Stack<FieldExpr>,
    pub alts: Stack<Alt>,
    pub stmts: Stack<Stmt>,
    pub binds: Stack<Bind>,
}

impl ExprBuilder {
    /// Nothing is built yet. Takes no memory.
    pub fn new(alloc: Global) -> ExprBuilder
        ensures { result ≡ start }
    {
        ExprBuilder {
            pats: PatBuilder::new(alloc),
            exprs: Stack::new(alloc),
            fields: Stack::new(alloc),
            alts: Stack::new(alloc),
            stmts: Stack::new(alloc),
            binds: Stack::new(alloc),
        }
    }

    /// Takes the next node, and answers whether its parts are there. Where they are not, no tree has these nodes, and
    /// what is built is of no use any more.
    pub fn take(&mut self, alloc: Global, node: ExprNode) -> Result<bool, Memory>
        ensures { IfOk result (λ taken. Stepped taken (stepped self.old node) self.new) }
    {
        match node {
            ExprNode::Var(place, name) => self.put(Expr::var(place, name)),
            ExprNode::Con(place, name) => self.put(Expr::con(place, name)),
            ExprNode::Number(place, value) => self.put(Expr::number(place, value)),
            ExprNode::Bits(place, width, value) => self.put(Expr::bits(place, width, value)),
            ExprNode::Unit(place) => self.put(Expr::unit(place)),
            ExprNode::Apply(place) => self.apply(alloc, place),
            ExprNode::Run(place, count) => self.run(alloc, place, count),
            ExprNode::Lambda(place, count) => self.lambda(alloc, place, count),
            ExprNode::Let(place, count) => self.let_in(alloc, place, count),
            ExprNode::If(place) => self.if_else(alloc, place),
            ExprNode::Case(place, count) => self.case(alloc, place, count),
            ExprNode::Do(place, count) => self.block(alloc, place, count),
            ExprNode::Select(place, field) => self.select(alloc, place, field),
            ExprNode::Field(place, name) => self.field(place, name),
            ExprNode::Build(place, name, count) => self.build(alloc, place, name, count),
            ExprNode::Update(place, count) => self.update(alloc, place, count),
            ExprNode::Pair(place) => self.pair(alloc, place),
            ExprNode::Pat(part) => self.pattern(alloc, part),
            ExprNode::Alternative => self.alternative(),
            ExprNode::TakeStmt => self.take_stmt(),
            ExprNode::LetStmt(count) => self.let_stmt(alloc, count),
            ExprNode::DoStmt => self.do_stmt(),
            ExprNode::Row(name, place, count, first, locals) => {
                self.row(alloc, name, place, count, first, locals)
            }
        }
    }

    /// Puts an expression on its stack.
    fn put(&mut self, whole: Expr) -> Result<bool, Memory>
        ensures { IfOk result (λ taken. Stepped taken (Some (with_exprs self.old (whole ∷ self.old.exprs))) self.new) }
    {
        self.exprs.push(whole)?;
        Ok(true)
    }

    /// The last expression but one applied to the last.
    fn apply(&mut self, alloc: Global, place: Place) -> Result<bool, Memory>
        ensures { IfOk result (λ taken. Stepped taken (of_two self.old tree.Apply place (two_off self.old.exprs)) self.new) }
    {
        match pop_two(&mut self.exprs) {
            Some((first, second)) => self.put(Expr::apply(alloc, place, first, second)?),
            None => Ok(false),
        }
    }

    /// The pair of the last two expressions.
    fn pair(&mut self, alloc: Global, place: Place) -> Result<bool, Memory>
        ensures { IfOk result (λ taken. Stepped taken (of_two self.old tree.Pair place (two_off self.old.exprs)) self.new) }
    {
        match pop_two(&mut self.exprs) {
            Some((first, second)) => self.put(Expr::pair(alloc, place, first, second)?),
            None => Ok(false),
        }
    }

    /// A run of so many operators and the operands around them.
    fn run(&mut self, alloc: Global, place: Place, count: u32) -> Result<bool, Memory>
        ensures { IfOk result (λ taken. Stepped taken (of_run self.old place (run_off count self.old.exprs [] [])) self.new) }
    {
        match take_run(&mut self.exprs, alloc, count)? {
            Some((operands, operators)) => self.put(Expr::run(place, operands, operators)),
            None => Ok(false),
        }
    }

    /// A function of so many patterns, whose body is the last expression.
    fn lambda(&mut self, alloc: Global, place: Place, count: u32) -> Result<bool, Memory>
        ensures { IfOk result (λ taken. Stepped taken (of_lambda self.old place self.old.exprs (pats_off count self.old.pats.parts [])) self.new) }
    {
        match (self.exprs.pop(), self.pats.take_pats(alloc, count)?) {
            (Some(body), Some(pats)) => self.put(Expr::lambda(alloc, place, pats, body)?),
            _ => Ok(false),
        }
    }

    /// The last expression with so many local definitions.
    fn let_in(&mut self, alloc: Global, place: Place, count: u32) -> Result<bool, Memory>
        ensures { IfOk result (λ taken. Stepped taken (of_let self.old place self.old.exprs (off count self.old.binds [])) self.new) }
    {
        match (
            self.exprs.pop(),
            take_off(&mut self.binds, alloc, count as usize)?,
        ) {
            (Some(body), Some(local)) => self.put(Expr::let_in(alloc, place, local, body)?),
            _ => Ok(false),
        }
    }

    /// The choice by the last expression but two.
    fn if_else(&mut self, alloc: Global, place: Place) -> Result<bool, Memory>
        ensures { IfOk result (λ taken. Stepped taken (of_if self.old place self.old.exprs) self.new) }
    {
        match (self.exprs.pop(), self.exprs.pop(), self.exprs.pop()) {
            (Some(other), Some(then), Some(test)) => {
                self.put(Expr::if_else(alloc, place, test, then, other)?)
            }
            _ => Ok(false),
        }
    }

    /// The choice of so many alternatives by the last expression.
    fn case(&mut self, alloc: Global, place: Place, count: u32) -> Result<bool, Memory>
        ensures { IfOk result (λ taken. Stepped taken (of_case self.old place self.old.exprs (off count self.old.alts [])) self.new) }
    {
        match (
            self.exprs.pop(),
            take_off(&mut self.alts, alloc, count as usize)?,
        ) {
            (Some(of), Some(all)) => self.put(Expr::case(alloc, place, of, all)?),
            _ => Ok(false),
        }
    }

    /// So many statements, one after another.
    fn block(&mut self, alloc: Global, place: Place, count: u32) -> Result<bool, Memory>
        ensures { IfOk result (λ taken. Stepped taken (of_do self.old place (off count self.old.stmts [])) self.new) }
    {
        match take_off(&mut self.stmts, alloc, count as usize)? {
            Some(all) => self.put(Expr::block(place, all)),
            None => Ok(false),
        }
    }

    /// The field of the last expression.
    fn select(&mut self, alloc: Global, place: Place, field: Name) -> Result<bool, Memory>
        ensures { IfOk result (λ taken. Stepped taken (of_select self.old place field self.old.exprs) self.new) }
    {
        match self.exprs.pop() {
            Some(of) => self.put(Expr::select(alloc, place, of, field)?),
            None => Ok(false),
        }
    }

    /// The last expression becomes the value of a field.
    fn field(&mut self, place: Place, name: Name) -> Result<bool, Memory>
        ensures { IfOk result (λ taken. Stepped taken (of_field self.old place name self.old.exprs) self.new) }
    {
        match self.exprs.pop() {
            Some(value) => {
                self.fields.push(FieldExpr { place, name, value })?;
                Ok(true)
            }
            None => Ok(false),
        }
    }

    /// A value of a constructor with so many fields.
    fn build(&mut self, alloc: Global, place: Place, name: Name, count: u32) -> Result<bool, Memory>
        ensures { IfOk result (λ taken. Stepped taken (of_build self.old place name (off count self.old.fields [])) self.new) }
    {
        match take_off(&mut self.fields, alloc, count as usize)? {
            Some(fields) => self.put(Expr::build(place, name, fields)),
            None => Ok(false),
        }
    }

    /// The last expression with so many fields replaced.
    fn update(&mut self, alloc: Global, place: Place, count: u32) -> Result<bool, Memory>
        ensures { IfOk result (λ taken. Stepped taken (of_update self.old place self.old.exprs (off count self.old.fields [])) self.new) }
    {
        match (
            self.exprs.pop(),
            take_off(&mut self.fields, alloc, count as usize)?,
        ) {
            (Some(of), Some(fields)) => self.put(Expr::update(alloc, place, of, fields)?),
            _ => Ok(false),
        }
    }

    /// A node of a pattern.
    fn pattern(&mut self, alloc: Global, part: PatNode) -> Result<bool, Memory>
        ensures { IfOk result (λ taken. Stepped taken (in_patterns self.old (pat_stepped self.old.pats.parts part)) self.new) }
    {
        let taken = self.pats.take(alloc, part)?;
        Ok(taken)
    }

    /// The last pattern and the last expression become an alternative.
    fn alternative(&mut self) -> Result<bool, Memory>
        ensures { IfOk result (λ taken. Stepped taken (of_alternative self.old (pat_off self.old.pats.parts) self.old.exprs) self.new) }
    {
        match (self.pats.pop_pat(), self.exprs.pop()) {
            (Some(pat), Some(body)) => {
                self.alts.push(Alt { pat, body })?;
                Ok(true)
            }
            _ => Ok(false),
        }
    }

    /// The last pattern and the last expression become a statement.
    fn take_stmt(&mut self) -> Result<bool, Memory>
        ensures { IfOk result (λ taken. Stepped taken (of_take self.old (pat_off self.old.pats.parts) self.old.exprs) self.new) }
    {
        match (self.pats.pop_pat(), self.exprs.pop()) {
            (Some(pat), Some(from)) => {
                self.stmts.push(Stmt::Take(pat, from))?;
                Ok(true)
            }
            _ => Ok(false),
        }
    }

    /// So many local definitions become a statement.
    fn let_stmt(&mut self, alloc: Global, count: u32) -> Result<bool, Memory>
        ensures { IfOk result (λ taken. Stepped taken (of_let_stmt self.old (off count self.old.binds [])) self.new) }
    {
        match take_off(&mut self.binds, alloc, count as usize)? {
            Some(local) => {
                self.stmts.push(Stmt::Let(local))?;
                Ok(true)
            }
            None => Ok(false),
        }
    }

    /// The last expression becomes a statement.
    fn do_stmt(&mut self) -> Result<bool, Memory>
        ensures { IfOk result (λ taken. Stepped taken (of_do_stmt self.old self.old.exprs) self.new) }
    {
        match self.exprs.pop() {
            Some(action) => {
                self.stmts.push(Stmt::Do(action))?;
                Ok(true)
            }
            None => Ok(false),
        }
    }

    /// A definition of one row: so many patterns, the last expression, and so many local definitions.
    fn row(
        &mut self,
        alloc: Global,
        name: Name,
        place: Place,
        count: u32,
        first: Place,
        locals: u32,
    ) -> Result<bool, Memory>
        ensures { IfOk result (λ taken. Stepped taken (of_row self.old name place first (pats_off count self.old.pats.parts []) self.old.exprs (off locals self.old.binds [])) self.new) }
    {
        let pats = self.pats.take_pats(alloc, count)?;
        let local = take_off(&mut self.binds, alloc, locals as usize)?;
        match (pats, self.exprs.pop(), local) {
            (Some(pats), Some(body), Some(local)) => {
                let rows = one_row(
                    alloc,
                    Equation {
                        pats,
                        first,
                        body,
                        local,
                    },
                )?;
                self.binds.push(Bind { name, place, rows })?;
                Ok(true)
            }
            _ => Ok(false),
        }
    }

    /// The expression, where it is all that is built.
    pub fn into_expr(self) -> Option<Expr>
        ensures { result ≡ lone_expr self.pats.parts self.exprs self.fields self.alts self.stmts self.binds }
    {
        if !self.pats.parts.is_empty() || !self.fields.is_empty() || !self.alts.is_empty() {
            return None;
        }
        if !self.stmts.is_empty() || !self.binds.is_empty() {
            return None;
        }
        lone(self.exprs)
    }
}

/// The list of one row.
fn one_row(alloc: Global, row: Equation) -> Result<List<Equation>, Memory>
    ensures { IfOk result (λ rows. rows ≡ row ∷ []) }
{
    let mut rows = Vec::new(alloc);
    rows.push(row)?;
    Ok(List::of(rows))
}
