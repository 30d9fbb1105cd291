use crate::expression::{Expr, ExprKind, FieldExpr};
use crate::initial::{InitExpr, InitKind};
use crate::pattern::{Pat, PatKind};
use crate::statement::{Alt, Bind, Equation, Stmt};
use crate::types::{NameAt, TypeExpr, TypeKind};
use hb_base::{List, Name, Place};
use std::alloc::Global;
use std::test::Fail;

fn at(col: u32) -> Place {
    Place { line: 1, col }
}

/// A list of one item.
fn one<T: Drop>(alloc: Global, item: T) -> Result<List<T>, Fail> {
    let mut all = List::of(Vec::new(alloc));
    all.push(item)?;
    Ok(all)
}

/// `f x`, whose place is that of `x`.
fn call(alloc: Global) -> Result<Expr, Fail> {
    let call = Expr::apply(
        alloc,
        at(3),
        Expr::var(at(1), Name(70)),
        Expr::var(at(3), Name(71)),
    )?;
    Ok(call)
}

#[test]
fn the_function_is_the_first_part(rt: HostRuntime) -> Result<(), Fail> {
    let e = call(rt.alloc())?;
    assert!(rt; e.node == 0);
    assert!(rt; e.place == at(3));
    assert!(rt;
        match &e.kind {
            ExprKind::Apply(f, x) => {
                matches!(f.kind, ExprKind::Var(Name(70)))
                    && matches!(x.kind, ExprKind::Var(Name(71)))
            }
            _ => false,
        }
    );
    Ok(())
}

#[test]
fn a_choice_has_its_parts_in_order(rt: HostRuntime) -> Result<(), Fail> {
    let e = Expr::if_else(
        rt.alloc(),
        at(1),
        Expr::con(at(4), Name(27)),
        Expr::number(at(14), 1),
        Expr::number(at(21), 2),
    )?;
    assert!(rt;
        match &e.kind {
            ExprKind::If(test, then, other) => {
                matches!(test.kind, ExprKind::Con(Name(27)))
                    && matches!(then.kind, ExprKind::Number(1))
                    && matches!(other.kind, ExprKind::Number(2))
            }
            _ => false,
        }
    );
    Ok(())
}

#[test]
fn a_case_keeps_its_alternatives(rt: HostRuntime) -> Result<(), Fail> {
    let alloc = rt.alloc();
    let alt = Alt {
        pat: Pat::bits(at(11), 3, 5),
        body: call(alloc)?,
    };
    let e = Expr::case(alloc, at(1), Expr::unit(at(6)), one(alloc, alt)?)?;
    assert!(rt;
        match &e.kind {
            ExprKind::Case(of, all) => {
                matches!(of.kind, ExprKind::Unit)
                    && match all.as_slice() {
                        [only] => matches!(only.pat.kind, PatKind::Bits(3, 5)),
                        _ => false,
                    }
            }
            _ => false,
        }
    );
    Ok(())
}

#[test]
fn a_block_holds_a_definition(rt: HostRuntime) -> Result<(), Fail> {
    let alloc = rt.alloc();
    let row = Equation {
        pats: one(alloc, Pat::any(at(10)))?,
        first: at(14),
        body: Expr::number(at(15), 7),
        local: List::of(Vec::new(alloc)),
    };
    let bind = Bind {
        name: Name(72),
        place: at(8),
        rows: one(alloc, row)?,
    };
    let e = Expr::block(at(1), one(alloc, Stmt::Let(one(alloc, bind)?))?);
    let rows = match &e.kind {
        ExprKind::Do(all) => match all.as_slice() {
            [Stmt::Let(binds)] => match binds.as_slice() {
                [only] => only.rows.len(),
                _ => 0,
            },
            _ => 0,
        },
        _ => 0,
    };
    assert!(rt; rows == 1);
    Ok(())
}

#[test]
fn an_initialiser_keeps_its_first_token(rt: HostRuntime) -> Result<(), Fail> {
    let index = NameAt {
        place: at(20),
        name: Name(73),
    };
    let cell = InitExpr::cell(at(25), Expr::number(at(26), 9));
    let init = InitExpr::each(rt.alloc(), at(15), index, cell)?;
    assert!(rt; init.place == at(15));
    assert!(rt;
        match &init.kind {
            InitKind::Each(index, part) => {
                index.name == Name(73)
                    && match &part.kind {
                        InitKind::Cell(value) => part.place == at(25) && value.place == at(26),
                        _ => false,
                    }
            }
            _ => false,
        }
    );
    Ok(())
}

#[test]
fn an_arrow_leads_from_the_first_type_to_the_second(rt: HostRuntime) -> Result<(), Fail> {
    let alloc = rt.alloc();
    let from = TypeExpr::pair(
        alloc,
        at(6),
        TypeExpr::var(at(7), Name(74)),
        TypeExpr::unit(at(10)),
    )?;
    let to = TypeExpr::apply(
        alloc,
        at(17),
        TypeExpr::con(at(17), Name(10)),
        TypeExpr::number(at(21), 8),
    )?;
    let arrow = TypeExpr::arrow(alloc, at(6), from, to)?;
    assert!(rt;
        match &arrow.kind {
            TypeKind::Arrow(from, to) => {
                matches!(from.kind, TypeKind::Pair(_, _))
                    && matches!(to.kind, TypeKind::Apply(_, _))
            }
            _ => false,
        }
    );
    Ok(())
}

#[test]
fn with_ample_memory_each_form_is_built(rt: HostRuntime) -> Result<(), Fail> {
    let alloc = rt.alloc();
    let pat = Pat::pair(alloc, at(2), Pat::any(at(3)), Pat::unit(at(6)))?;
    let function = Expr::lambda(alloc, at(1), one(alloc, pat)?, call(alloc)?)?;
    let local = Expr::let_in(alloc, at(1), List::of(Vec::new(alloc)), function)?;
    let field = FieldExpr {
        place: at(30),
        name: Name(75),
        value: local,
    };
    let updated = Expr::update(alloc, at(28), call(alloc)?, one(alloc, field)?)?;
    let selected = Expr::select(alloc, at(28), updated, Name(75))?;
    let both = Expr::pair(alloc, at(28), selected, Expr::bits(at(50), 2, 3))?;
    let sum = TypeExpr::sum(
        alloc,
        at(60),
        TypeExpr::number(at(60), 1),
        TypeExpr::number(at(64), 2),
    )?;
    assert!(rt; matches!(both.kind, ExprKind::Pair(_, _)));
    assert!(rt; matches!(sum.kind, TypeKind::Sum(_, _)));
    Ok(())
}
