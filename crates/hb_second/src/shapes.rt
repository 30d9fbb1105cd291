//! What a part of a tree is by itself.
ghost use Rattle.std.specs.Prelude.{◌≡◌, option_map};
ghost use Rattle.hb_tree.specs.ExpressionViews.{stmts, binds};
ghost use Rattle.hb_second.specs.Items.{is_con, is_number, is_byte_type, is_byte_port, is_action_type, variable_of, is_variable, do_of, first_place, let_place, is_main_alone, is_main_signature, no_binds, is_plain, row_statements, main_statements};

use crate::spelling::is_named;
use hb_base::{Name, Names, Place};
use hb_tree::{Bind, Equation, Expr, ExprKind, NameAt, Sig, Stmt, TypeExpr, TypeKind};

fn is_con(names: &Names, text: &[u8], of: &TypeExpr) -> bool
    ensures { result ≡ is_con names.now text.now of.now }
{
    match &of.kind {
        TypeKind::Con(name) => is_named(names, text, *name),
        _ => false,
    }
}

fn is_number(value: u64, of: &TypeExpr) -> bool
    ensures { result ≡ is_number value of.now }
{
    match &of.kind {
        TypeKind::Number(number) => *number == value,
        _ => false,
    }
}

/// The type is `Bit 8`.
fn is_byte_type(names: &Names, of: &TypeExpr) -> bool
    ensures { result ≡ is_byte_type names.now of.now }
{
    match &of.kind {
        TypeKind::Apply(f, x) => is_con(names, b"Bit", f) && is_number(8, x),
        _ => false,
    }
}

/// The port is one of eight bits, and its address is written with 32.
pub fn is_byte_port(names: &Names, of: &TypeExpr, width: u32) -> bool
    ensures { result ≡ is_byte_port names.now of.now width }
{
    is_byte_type(names, of) && width == 32
}

/// The type is `M Unit`.
fn is_action_type(names: &Names, of: &TypeExpr) -> bool
    ensures { result ≡ is_action_type names.now of.now }
{
    match &of.kind {
        TypeKind::Apply(f, x) => is_con(names, b"M", f) && is_con(names, b"Unit", x),
        _ => false,
    }
}

/// The variable that an expression is.
pub fn variable_of(expr: &Expr) -> Option<Name>
    ensures { result ≡ variable_of expr.now }
{
    match &expr.kind {
        ExprKind::Var(name) => Some(*name),
        _ => None,
    }
}

/// The expression is the variable of this text.
pub fn is_variable(names: &Names, text: &[u8], expr: &Expr) -> bool
    ensures { result ≡ is_variable names.now text.now expr.now }
{
    match variable_of(expr) {
        Some(name) => is_named(names, text, name),
        None => false,
    }
}

fn is_main_alone(names: &Names, all: &[NameAt]) -> bool
    ensures { result ≡ is_main_alone names.now all.now }
{
    match all {
        [name] => is_named(names, b"main", name.name),
        _ => false,
    }
}

/// The signature is `main :: M Unit`.
pub fn is_main_signature(names: &Names, sig: &Sig) -> bool
    ensures { result ≡ is_main_signature names.now sig.now }
{
    is_main_alone(names, sig.names.as_slice())
        && sig.context.as_slice().is_empty()
        && is_action_type(names, &sig.body)
}

/// The statements of a `do`.
fn do_of(expr: &Expr) -> Option<&[Stmt]>
    ensures { option_map (λ all. stmts all.now) result ≡ do_of expr.now }
{
    match &expr.kind {
        ExprKind::Do(all) => Some(all.as_slice()),
        _ => None,
    }
}

fn no_binds(local: &[Bind]) -> bool
    ensures { result ≡ no_binds (binds local.now) }
{
    match local {
        [] => true,
        [_, ..] => false,
    }
}

/// A row without patterns and without `where`.
fn is_plain(row: &Equation) -> bool
    ensures { result ≡ is_plain row.now }
{
    row.pats.as_slice().is_empty() && no_binds(row.local.as_slice())
}

/// The statements of one plain row.
fn row_statements(rows: &[Equation]) -> Option<&[Stmt]>
    ensures { option_map (λ all. stmts all.now) result ≡ row_statements rows.now }
{
    match rows {
        [row] => {
            if is_plain(row) {
                do_of(&row.body)
            } else {
                None
            }
        }
        _ => None,
    }
}

/// The statements of `main = do ..`.
pub fn main_statements<'a>(names: &Names, bind: &'a Bind) -> Option<&'a [Stmt]>
    ensures { option_map (λ all. stmts all.now) result ≡ main_statements names.now bind.now }
{
    if is_named(names, b"main", bind.name) {
        row_statements(bind.rows.as_slice())
    } else {
        None
    }
}

/// The place of the leftmost part of an expression.
pub fn first_place(expr: &Expr) -> Place
    ensures { result ≡ first_place expr.now }
{
    match &expr.kind {
        ExprKind::Apply(f, _) => first_place(f),
        ExprKind::Run(operands, _) => match operands.as_slice() {
            [first, ..] => first_place(first),
            [] => expr.place,
        },
        ExprKind::Select(of, _) => first_place(of),
        ExprKind::Update(of, _) => first_place(of),
        _ => expr.place,
    }
}

/// The place of the first of these definitions; without one, that of the equation around.
pub fn let_place(around: Place, local: &[Bind]) -> Place
    ensures { result ≡ let_place around (binds local.now) }
{
    match local {
        [first, ..] => first.place,
        [] => around,
    }
}
