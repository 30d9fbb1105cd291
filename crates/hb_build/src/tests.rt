use crate::{Qualified, build_context, build_pat, build_qualified, build_row, build_type};
use hb_base::{Name, Place};
use hb_read_patterns::PatNode;
use hb_read_types::TypeNode;
use hb_tree::{Pat, PatKind, PredExpr, TypeExpr, TypeKind};
use std::test::Fail;

fn at(col: u32) -> Place {
    Place { line: 1, col }
}

/// The constructor of this name, here.
fn is_con(whole: &TypeExpr, col: u32, name: u32) -> bool {
    match whole.kind {
        TypeKind::Con(found) => whole.place == at(col) && found == Name(name),
        _ => false,
    }
}

/// The arrow at this place from `(A, B)` to `C`.
fn is_arrow_from_a_pair(whole: &TypeExpr) -> bool {
    match &whole.kind {
        TypeKind::Arrow(from, to) => match &from.kind {
            TypeKind::Pair(first, second) => {
                whole.place == at(1)
                    && from.place == at(1)
                    && is_con(first, 2, 100)
                    && is_con(second, 5, 101)
                    && is_con(to, 11, 102)
            }
            _ => false,
        },
        _ => false,
    }
}

#[test]
fn a_pair_and_an_arrow_have_their_parts_in_order(rt: HostRuntime) -> Result<(), Fail> {
    let nodes = [
        TypeNode::Con(at(2), Name(100)),
        TypeNode::Con(at(5), Name(101)),
        TypeNode::Pair(at(1)),
        TypeNode::Con(at(11), Name(102)),
        TypeNode::Arrow(at(1)),
    ];
    match build_type(rt.alloc(), &nodes)? {
        Some(whole) => assert!(rt; is_arrow_from_a_pair(&whole)),
        None => assert!(rt; false),
    }
    Ok(())
}

#[test]
fn nodes_of_no_type_build_none(rt: HostRuntime) -> Result<(), Fail> {
    let alloc = rt.alloc();
    let a = TypeNode::Con(at(1), Name(100));
    assert!(rt; build_type(alloc, &[])?.is_none());
    assert!(rt; build_type(alloc, &[a, a])?.is_none());
    assert!(rt; build_type(alloc, &[a, TypeNode::Apply(at(1))])?.is_none());
    assert!(rt; build_type(alloc, &[a, TypeNode::Class(at(1), Name(101), 1)])?.is_none());
    assert!(rt; build_type(alloc, &[TypeNode::Context(0), a])?.is_none());
    Ok(())
}

/// The context `(C A 7, A <= 7)`.
fn nodes_of_a_context() -> [TypeNode; 7] {
    [
        TypeNode::Con(at(4), Name(100)),
        TypeNode::Number(at(6), 7),
        TypeNode::Class(at(2), Name(110), 2),
        TypeNode::Con(at(9), Name(100)),
        TypeNode::Number(at(14), 7),
        TypeNode::AtMostFact,
        TypeNode::Context(2),
    ]
}

fn is_that_context(preds: &[PredExpr]) -> bool {
    match preds {
        [PredExpr::Class(name, types), PredExpr::AtMost(less, more)] => match types.as_slice() {
            [first, second] => {
                name.place == at(2)
                    && name.name == Name(110)
                    && is_con(first, 4, 100)
                    && matches!(second.kind, TypeKind::Number(7))
                    && is_con(less, 9, 100)
                    && matches!(more.kind, TypeKind::Number(7))
            }
            _ => false,
        },
        _ => false,
    }
}

#[test]
fn a_context_has_its_predicates_in_order(rt: HostRuntime) -> Result<(), Fail> {
    match build_context(rt.alloc(), &nodes_of_a_context())? {
        Some(preds) => assert!(rt; is_that_context(preds.as_slice())),
        None => assert!(rt; false),
    }
    Ok(())
}

#[test]
fn a_count_must_be_that_of_the_parts(rt: HostRuntime) -> Result<(), Fail> {
    let alloc = rt.alloc();
    let a = TypeNode::Con(at(1), Name(100));
    let class = TypeNode::Class(at(1), Name(110), 2);
    assert!(rt; build_context(alloc, &[a, class, TypeNode::Context(1)])?.is_none());
    assert!(rt; build_context(alloc, &[a, a, class, TypeNode::Context(2)])?.is_none());
    assert!(rt; build_context(alloc, &[a, a, class, TypeNode::Context(1)])?.is_some());
    assert!(rt; build_context(alloc, &[TypeNode::Context(0)])?.is_some());
    Ok(())
}

#[test]
fn a_type_may_stand_behind_a_context(rt: HostRuntime) -> Result<(), Fail> {
    let alloc = rt.alloc();
    let nodes = [
        TypeNode::Var(at(4), Name(120)),
        TypeNode::Number(at(8), 1),
        TypeNode::Var(at(12), Name(120)),
        TypeNode::SumFact,
        TypeNode::Context(1),
        TypeNode::Con(at(17), Name(100)),
    ];
    match build_qualified(alloc, &nodes)? {
        Some(Qualified { context, body }) => {
            assert!(rt; is_con(&body, 17, 100));
            assert!(rt; matches!(context.as_slice(), [PredExpr::Sum(_, _, _)]));
        }
        None => assert!(rt; false),
    }
    assert!(rt; build_type(alloc, &nodes)?.is_none());
    assert!(rt; build_context(alloc, &nodes)?.is_none());
    Ok(())
}

/// The variable of this name, here.
fn is_var(pat: &Pat, col: u32, name: u32) -> bool {
    match pat.kind {
        PatKind::Var(found) => pat.node == 0 && pat.place == at(col) && found == Name(name),
        _ => false,
    }
}

/// `C x (y, 7)`.
fn is_that_call(pat: &Pat) -> bool {
    match &pat.kind {
        PatKind::Con(name, args) => match args.as_slice() {
            [first, second] => match &second.kind {
                PatKind::Pair(left, right) => {
                    *name == Name(100)
                        && pat.place == at(1)
                        && is_var(first, 3, 110)
                        && second.place == at(5)
                        && is_var(left, 6, 111)
                        && right.place == at(9)
                        && matches!(right.kind, PatKind::Number(7))
                }
                _ => false,
            },
            _ => false,
        },
        _ => false,
    }
}

#[test]
fn arguments_and_pairs_have_their_parts_in_order(rt: HostRuntime) -> Result<(), Fail> {
    let nodes = [
        PatNode::Var(at(3), Name(110)),
        PatNode::Var(at(6), Name(111)),
        PatNode::Number(at(9), 7),
        PatNode::Pair(at(5)),
        PatNode::Con(at(1), Name(100), 2),
    ];
    match build_pat(rt.alloc(), &nodes)? {
        Some(pat) => assert!(rt; is_that_call(&pat)),
        None => assert!(rt; false),
    }
    Ok(())
}

/// `C [f = x | g = _]`.
fn is_that_form(pat: &Pat) -> bool {
    match &pat.kind {
        PatKind::Fields(name, fields) => match fields.as_slice() {
            [first, second] => {
                *name == Name(100)
                    && first.place == at(4)
                    && first.name == Name(120)
                    && is_var(&first.pat, 8, 110)
                    && second.place == at(12)
                    && second.name == Name(121)
                    && matches!(second.pat.kind, PatKind::Any)
            }
            _ => false,
        },
        _ => false,
    }
}

#[test]
fn fields_have_their_patterns_in_order(rt: HostRuntime) -> Result<(), Fail> {
    let nodes = [
        PatNode::Var(at(8), Name(110)),
        PatNode::Field(at(4), Name(120)),
        PatNode::Any(at(16)),
        PatNode::Field(at(12), Name(121)),
        PatNode::Fields(at(1), Name(100), 2),
    ];
    match build_pat(rt.alloc(), &nodes)? {
        Some(pat) => assert!(rt; is_that_form(&pat)),
        None => assert!(rt; false),
    }
    Ok(())
}

#[test]
fn nodes_of_no_pattern_build_none(rt: HostRuntime) -> Result<(), Fail> {
    let alloc = rt.alloc();
    let x = PatNode::Var(at(1), Name(110));
    let field = PatNode::Field(at(1), Name(120));
    assert!(rt; build_pat(alloc, &[])?.is_none());
    assert!(rt; build_pat(alloc, &[x, x])?.is_none());
    assert!(rt; build_pat(alloc, &[x, field])?.is_none());
    assert!(rt; build_pat(alloc, &[x, PatNode::Pair(at(1))])?.is_none());
    assert!(rt; build_pat(alloc, &[x, PatNode::Con(at(1), Name(100), 2)])?.is_none());
    assert!(rt; build_pat(alloc, &[x, PatNode::Fields(at(1), Name(100), 1)])?.is_none());
    assert!(rt; build_pat(alloc, &[x, field, PatNode::Con(at(1), Name(100), 1)])?.is_none());
    assert!(rt; build_pat(alloc, &[x, PatNode::Row(1)])?.is_none());
    Ok(())
}

#[test]
fn a_row_has_its_patterns_in_order(rt: HostRuntime) -> Result<(), Fail> {
    let alloc = rt.alloc();
    let x = PatNode::Var(at(1), Name(110));
    let y = PatNode::Var(at(3), Name(111));
    match build_row(alloc, &[x, y, PatNode::Row(2)])? {
        Some(row) => match row.as_slice() {
            [first, second] => {
                assert!(rt; is_var(first, 1, 110));
                assert!(rt; is_var(second, 3, 111));
            }
            _ => assert!(rt; false),
        },
        None => assert!(rt; false),
    }
    assert!(rt; build_row(alloc, &[x, y, PatNode::Row(1)])?.is_none());
    assert!(rt; build_row(alloc, &[x, PatNode::Row(2)])?.is_none());
    assert!(rt; build_row(alloc, &[x])?.is_none());
    assert!(rt; build_row(alloc, &[PatNode::Row(0)])?.is_some());
    Ok(())
}
