use crate::{Settled, is_earlier, settle};
use hb_base::{List, Name, Place, fixed};
use hb_tree::{Bind, Decl, Equation, Expr, ExprKind, Fix, NameAt, Pat, PatKind, Program};
use std::alloc::Global;
use std::test::Fail;

/// How many names there are in these tests: each byte is the number of one.
const NAMES: u32 = 256;

fn at(col: u32) -> Place {
    Place { line: 1, col }
}

fn letter(name: u8) -> Name {
    Name(u32::from(name))
}

fn one<T: Drop>(alloc: Global, item: T) -> Result<List<T>, Fail> {
    let mut all = List::of(Vec::new(alloc));
    all.push(item)?;
    Ok(all)
}

/// A definition of one row at this column, with a pattern `_` for each parameter.
fn row(alloc: Global, col: u32, name: u8, params: u32, body: Expr) -> Result<Bind, Fail> {
    let mut pats = List::of(Vec::new(alloc));
    for _ in 0..params {
        pats.push(Pat::any(at(col)))?;
    }
    let row = Equation {
        pats,
        first: body.place,
        body,
        local: List::of(Vec::new(alloc)),
    };
    Ok(Bind {
        name: letter(name),
        place: at(col),
        rows: one(alloc, row)?,
    })
}

fn fixity(alloc: Global, fix: Fix, level: u8, name: u8) -> Result<Decl, Fail> {
    let named = NameAt {
        place: at(1),
        name: letter(name),
    };
    Ok(Decl::Fixity(at(1), fix, level, one(alloc, named)?))
}

/// The run with an operand for each letter at an odd place of the text, and an operator for each other one.
fn run(alloc: Global, text: &[u8]) -> Result<Expr, Fail> {
    let mut operands = List::of(Vec::new(alloc));
    let mut operators = List::of(Vec::new(alloc));
    let mut col = 0u32;
    for byte in text {
        let e = Expr::var(at(col), letter(*byte));
        if col % 2 == 0 {
            operands.push(e)?;
        } else {
            operators.push(e)?;
        }
        col = col.wrapping_add(1);
    }
    Ok(Expr::run(at(0), operands, operators))
}

/// What these declarations settle to, behind a prelude in which `+` and `*` are declared as usual.
fn settled(alloc: Global, decls: List<Decl>) -> Result<Settled, Fail> {
    let mut prelude = List::of(Vec::new(alloc));
    prelude.push(fixity(alloc, Fix::Left, 7, b'*')?)?;
    prelude.push(fixity(alloc, Fix::Left, 6, b'+')?)?;
    prelude.push(fixity(alloc, Fix::Right, 6, b':')?)?;
    let answer = settle(alloc, NAMES, Program { decls: prelude }, Program { decls })?;
    Ok(answer)
}

/// The one byte that is the name's number.
fn sign(name: Name) -> u8 {
    u8::try_from(name.0).unwrap_or(b'?')
}

/// Writes the tree in node order: a letter for a name, `.` for an application, `?` for any other form. Answers whether the
/// nodes have the numbers from `next` on.
fn write(e: &Expr, text: &mut Vec<u8>, next: &mut u32) -> Result<bool, Fail> {
    let mut right = true;
    match &e.kind {
        ExprKind::Var(name) => text.push(sign(*name))?,
        ExprKind::Con(name) => text.push(sign(*name))?,
        ExprKind::Apply(f, x) => {
            right = write(f, text, next)? && write(x, text, next)?;
            text.push(b'.')?;
        }
        _ => text.push(b'?')?,
    }
    right = right && e.node == *next;
    *next = next.wrapping_add(1);
    Ok(right)
}

/// The expression of the last declaration, in node order.
fn written(alloc: Global, settled: &Settled) -> Result<Vec<u8>, Fail> {
    let mut text = Vec::new(alloc);
    if let Some(Decl::Equation(bind)) = settled.program.decls.as_slice().last() {
        if let [row] = bind.rows.as_slice() {
            let mut next = 0;
            if !write(&row.body, &mut text, &mut next)? || next != settled.nodes {
                text.push(b'!')?;
            }
        }
    }
    Ok(text)
}

/// What a run of the text settles to, in node order.
fn settled_run(alloc: Global, text: &[u8]) -> Result<Vec<u8>, Fail> {
    let bind = row(alloc, 1, b'm', 0, run(alloc, text)?)?;
    let settled = settled(alloc, one(alloc, Decl::Equation(bind))?)?;
    let mut text = written(alloc, &settled)?;
    if let Some(clash) = settled.clash {
        text.push(sign(clash.name))?;
        text.push(b'0'.saturating_add(u8::try_from(clash.place.col).unwrap_or(0)))?;
    }
    Ok(text)
}

#[test]
fn operators_group_and_nodes_are_numbered(rt: HostRuntime) -> Result<(), Fail> {
    let alloc = rt.alloc();
    assert_eq!(rt; settled_run(alloc, b"a")?.as_slice(), b"a".as_slice());
    assert_eq!(rt; settled_run(alloc, b"a+b")?.as_slice(), b"+a.b.".as_slice());
    assert_eq!(rt;
        settled_run(alloc, b"a+b*c")?.as_slice(),
        b"+a.*b.c..".as_slice()
    );
    assert_eq!(rt;
        settled_run(alloc, b"a*b+c")?.as_slice(),
        b"+*a.b..c.".as_slice()
    );
    assert_eq!(rt;
        settled_run(alloc, b"a:b:c")?.as_slice(),
        b":a.:b.c..".as_slice()
    );
    assert_eq!(rt;
        settled_run(alloc, b"a+b!c")?.as_slice(),
        b"+a.!b.c..".as_slice()
    );
    Ok(())
}

#[test]
fn the_first_clash_is_kept(rt: HostRuntime) -> Result<(), Fail> {
    let alloc = rt.alloc();
    let text = settled_run(alloc, b"a+b:c+d")?;
    assert!(rt; text.as_slice().ends_with(b":3"));
    Ok(())
}

#[test]
fn a_pair_is_an_application(rt: HostRuntime) -> Result<(), Fail> {
    let alloc = rt.alloc();
    let pair = Expr::pair(
        alloc,
        at(5),
        run(alloc, b"a+b")?,
        Expr::con(at(9), letter(b'c')),
    )?;
    let bind = row(alloc, 1, b'm', 0, pair)?;
    let settled = settled(alloc, one(alloc, Decl::Equation(bind))?)?;
    let text = written(alloc, &settled)?;
    let pair = u8::try_from(fixed::PAIR.0).unwrap_or(0);
    assert_eq!(rt;
        text.as_slice(),
        [pair, b'+', b'a', b'.', b'b', b'.', b'.', b'c', b'.'].as_slice()
    );
    Ok(())
}

#[test]
fn rows_next_to_each_other_are_one_definition(rt: HostRuntime) -> Result<(), Fail> {
    let alloc = rt.alloc();
    let mut decls = List::of(Vec::new(alloc));
    decls.push(Decl::Equation(row(alloc, 1, b'f', 1, Expr::unit(at(2)))?))?;
    decls.push(Decl::Equation(row(alloc, 3, b'f', 1, Expr::unit(at(4)))?))?;
    decls.push(Decl::Equation(row(alloc, 5, b'g', 0, Expr::unit(at(6)))?))?;
    decls.push(Decl::Equation(row(alloc, 7, b'f', 1, Expr::unit(at(8)))?))?;
    let settled = settled(alloc, decls)?;
    let mut rows = Vec::new(alloc);
    for decl in settled.program.decls.as_slice() {
        if let Decl::Equation(bind) = decl {
            rows.push(bind.rows.len())?;
        }
    }
    assert_eq!(rt; rows.as_slice(), [2, 1, 1].as_slice());
    assert_eq!(rt; settled.nodes, 7);
    assert!(rt; settled.uneven.is_none());
    Ok(())
}

#[test]
fn a_row_of_another_length_is_kept_where_it_stands(rt: HostRuntime) -> Result<(), Fail> {
    let alloc = rt.alloc();
    let mut decls = List::of(Vec::new(alloc));
    decls.push(Decl::Equation(row(alloc, 1, b'f', 2, Expr::unit(at(2)))?))?;
    decls.push(Decl::Equation(row(alloc, 3, b'f', 1, Expr::unit(at(4)))?))?;
    decls.push(Decl::Equation(row(alloc, 5, b'f', 2, Expr::unit(at(6)))?))?;
    decls.push(Decl::Equation(row(alloc, 7, b'f', 3, Expr::unit(at(8)))?))?;
    let settled = settled(alloc, decls)?;
    match settled.uneven {
        Some(row) => {
            assert_eq!(rt; row.place.col, 3);
            assert_eq!(rt; row.name, letter(b'f'));
        }
        None => assert!(rt; false),
    }
    Ok(())
}

#[test]
fn the_places_of_the_prelude_come_last(rt: HostRuntime) -> Result<(), Fail> {
    let prelude = Place { line: 0, col: 0 };
    let second = Place { line: 2, col: 1 };
    assert!(rt; is_earlier(at(3), prelude));
    assert!(rt; !is_earlier(prelude, at(3)));
    assert!(rt; is_earlier(at(3), at(4)));
    assert!(rt; !is_earlier(at(3), at(3)));
    assert!(rt; is_earlier(at(9), second));
    assert!(rt; !is_earlier(second, at(9)));
    Ok(())
}

#[test]
fn patterns_keep_their_form(rt: HostRuntime) -> Result<(), Fail> {
    let alloc = rt.alloc();
    let part = Pat::con(
        at(3),
        letter(b'C'),
        one(alloc, Pat::var(at(4), letter(b'x')))?,
    );
    let pat = Pat::pair(alloc, at(2), part, Pat::number(at(6), 7))?;
    let body = Expr::lambda(alloc, at(1), one(alloc, pat)?, run(alloc, b"a")?)?;
    let bind = row(alloc, 1, b'm', 0, body)?;
    let settled = settled(alloc, one(alloc, Decl::Equation(bind))?)?;
    assert_eq!(rt; settled.nodes, 6);
    let mut found = false;
    if let Some(Decl::Equation(bind)) = settled.program.decls.as_slice().last() {
        if let [row] = bind.rows.as_slice() {
            if let ExprKind::Lambda(pats, _) = &row.body.kind {
                if let [pat] = pats.as_slice() {
                    found = pat.node == 3 && matches!(pat.kind, PatKind::Pair(_, _));
                }
            }
        }
    }
    assert!(rt; found);
    Ok(())
}
