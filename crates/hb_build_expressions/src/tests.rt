use crate::build_expr;
use hb_base::{Name, Place};
use hb_read_expressions::ExprNode;
use hb_read_patterns::PatNode;
use hb_tree::{Alt, Bind, Equation, Expr, ExprKind, FieldExpr, Pat, PatKind, Stmt};
use std::test::Fail;

fn at(col: u32) -> Place {
    Place { line: 1, col }
}

/// The variable of this name, at the place of the same number.
fn var(name: u32) -> ExprNode {
    ExprNode::Var(at(name), Name(name))
}

fn pat_var(name: u32) -> ExprNode {
    ExprNode::Pat(PatNode::Var(at(name), Name(name)))
}

fn is_var(e: &Expr, name: u32) -> bool {
    match e.kind {
        ExprKind::Var(found) => e.place == at(name) && found == Name(name),
        _ => false,
    }
}

fn is_pat_var(pat: &Pat, name: u32) -> bool {
    match pat.kind {
        PatKind::Var(found) => pat.place == at(name) && found == Name(name),
        _ => false,
    }
}

/// `a + b * c`, by these numbers: 70, 80, 71, 81, 72.
fn is_that_run(e: &Expr) -> bool {
    match &e.kind {
        ExprKind::Run(operands, operators) => match (operands.as_slice(), operators.as_slice()) {
            ([a, b, c], [plus, times]) => {
                is_var(a, 70)
                    && is_var(b, 71)
                    && is_var(c, 72)
                    && is_var(plus, 80)
                    && is_var(times, 81)
            }
            _ => false,
        },
        _ => false,
    }
}

#[test]
fn a_run_has_its_operands_and_its_operators_in_order(rt: HostRuntime) -> Result<(), Fail> {
    let nodes = [
        var(70),
        var(80),
        var(71),
        var(81),
        var(72),
        ExprNode::Run(at(1), 2),
    ];
    match build_expr(rt.alloc(), &nodes)? {
        Some(whole) => assert!(rt; is_that_run(&whole)),
        None => assert!(rt; false),
    }
    Ok(())
}

/// The choice between 71 and the application of 72 to 73, by 70.
fn is_that_choice(e: &Expr) -> bool {
    match &e.kind {
        ExprKind::If(test, then, other) => match &other.kind {
            ExprKind::Apply(f, x) => {
                is_var(test, 70) && is_var(then, 71) && is_var(f, 72) && is_var(x, 73)
            }
            _ => false,
        },
        _ => false,
    }
}

#[test]
fn a_choice_has_its_test_first(rt: HostRuntime) -> Result<(), Fail> {
    let nodes = [
        var(70),
        var(71),
        var(72),
        var(73),
        ExprNode::Apply(at(73)),
        ExprNode::If(at(1)),
    ];
    match build_expr(rt.alloc(), &nodes)? {
        Some(whole) => assert!(rt; is_that_choice(&whole)),
        None => assert!(rt; false),
    }
    Ok(())
}

/// The row `90 91 = 92`, whose body begins at 5, with the definition 93 behind `where`.
fn is_that_row(row: &Equation) -> bool {
    match (row.pats.as_slice(), row.local.as_slice()) {
        ([pat], [Bind { name, .. }]) => {
            is_pat_var(pat, 91) && row.first == at(5) && is_var(&row.body, 92) && *name == Name(93)
        }
        _ => false,
    }
}

/// The statements: take 70 from 71, define 90, do 72.
fn is_that_block(all: &[Stmt]) -> bool {
    match all {
        [Stmt::Take(pat, from), Stmt::Let(local), Stmt::Do(action)] => match local.as_slice() {
            [bind] => match bind.rows.as_slice() {
                [row] => {
                    is_pat_var(pat, 70)
                        && is_var(from, 71)
                        && bind.name == Name(90)
                        && bind.place == at(2)
                        && is_that_row(row)
                        && is_var(action, 72)
                }
                _ => false,
            },
            _ => false,
        },
        _ => false,
    }
}

#[test]
fn statements_and_definitions_stand_in_order(rt: HostRuntime) -> Result<(), Fail> {
    let nodes = [
        pat_var(70),
        var(71),
        ExprNode::TakeStmt,
        pat_var(91),
        var(92),
        var(94),
        ExprNode::Row(Name(93), at(3), 0, at(94), 0),
        ExprNode::Row(Name(90), at(2), 1, at(5), 1),
        ExprNode::LetStmt(1),
        var(72),
        ExprNode::DoStmt,
        ExprNode::Do(at(1), 3),
    ];
    match build_expr(rt.alloc(), &nodes)? {
        Some(whole) => assert!(rt;
            match &whole.kind {
                ExprKind::Do(all) => is_that_block(all.as_slice()),
                _ => false,
            }
        ),
        None => assert!(rt; false),
    }
    Ok(())
}

/// An update of 70 with the fields 80 and 81.
fn is_that_update(e: &Expr) -> bool {
    match &e.kind {
        ExprKind::Update(of, fields) => match fields.as_slice() {
            [
                FieldExpr {
                    name: first,
                    value: left,
                    ..
                },
                FieldExpr {
                    name: second,
                    value: right,
                    ..
                },
            ] => {
                is_var(of, 70)
                    && *first == Name(80)
                    && is_var(left, 71)
                    && *second == Name(81)
                    && is_var(right, 72)
            }
            _ => false,
        },
        _ => false,
    }
}

#[test]
fn an_alternative_has_its_pattern_and_its_body(rt: HostRuntime) -> Result<(), Fail> {
    let nodes = [
        var(60),
        pat_var(61),
        var(70),
        var(71),
        ExprNode::Field(at(80), Name(80)),
        var(72),
        ExprNode::Field(at(81), Name(81)),
        ExprNode::Update(at(1), 2),
        ExprNode::Alternative,
        ExprNode::Case(at(1), 1),
    ];
    match build_expr(rt.alloc(), &nodes)? {
        Some(whole) => assert!(rt;
            match &whole.kind {
                ExprKind::Case(of, all) => match all.as_slice() {
                    [Alt { pat, body }] => {
                        is_var(of, 60) && is_pat_var(pat, 61) && is_that_update(body)
                    }
                    _ => false,
                },
                _ => false,
            }
        ),
        None => assert!(rt; false),
    }
    Ok(())
}

#[test]
fn nodes_without_their_parts_build_none(rt: HostRuntime) -> Result<(), Fail> {
    let alloc = rt.alloc();
    let x = var(70);
    assert!(rt; build_expr(alloc, &[])?.is_none());
    assert!(rt; build_expr(alloc, &[x, x])?.is_none());
    assert!(rt; build_expr(alloc, &[x, ExprNode::Apply(at(1))])?.is_none());
    assert!(rt; build_expr(alloc, &[x, x, ExprNode::Run(at(1), 1)])?.is_none());
    assert!(rt; build_expr(alloc, &[x, ExprNode::Lambda(at(1), 1)])?.is_none());
    assert!(rt; build_expr(alloc, &[x, ExprNode::Update(at(1), 1)])?.is_none());
    assert!(rt; build_expr(alloc, &[x, ExprNode::DoStmt])?.is_none());
    assert!(rt; build_expr(alloc, &[x, ExprNode::Do(at(1), u32::MAX)])?.is_none());
    Ok(())
}
