use crate::{Fixity, Grouped, Operator, group};
use hb_base::{Name, Place};
use hb_stack::Stack;
use hb_tree::{Expr, ExprKind, Fix};
use std::alloc::Global;
use std::test::Fail;

fn at(col: u32) -> Place {
    Place { line: 1, col }
}

/// An operand is a letter, and stands behind its operator.
fn operand(col: u32, letter: u8) -> Expr {
    Expr::var(at(col), Name(u32::from(letter)))
}

fn declared(fix: Fix, level: u8) -> Fixity {
    Fixity { fix, level }
}

/// What each operator of these tests is declared as. The last one has no declaration.
fn fixity_of(sign: u8) -> Fixity {
    match sign {
        b'*' => declared(Fix::Left, 7),
        b'+' | b'-' => declared(Fix::Left, 6),
        b'@' => declared(Fix::Left, 5),
        b':' => declared(Fix::Right, 5),
        b'=' | b'<' => declared(Fix::Neither, 4),
        b'~' => declared(Fix::Left, 4),
        b'$' => declared(Fix::Right, 0),
        b'.' => declared(Fix::Right, 9),
        _ => Fixity::STANDARD,
    }
}

/// The run with `a` at column 1, then of each triple the operator at this column and the operand behind it.
fn grouped(alloc: Global, rest: &[(u32, u8, u8)]) -> Result<Grouped, Fail> {
    let mut stack = Stack::new(alloc);
    for (col, sign, letter) in rest.iter().rev().copied() {
        let operator = Operator {
            place: at(col),
            name: Name(u32::from(sign)),
            fixity: fixity_of(sign),
        };
        stack.push((operator, operand(col.wrapping_add(1), letter)))?;
    }
    let answer = group(alloc, operand(1, b'a'), stack)?;
    Ok(answer)
}

fn sign_of(name: Name) -> u8 {
    u8::try_from(name.0).unwrap_or(b'?')
}

/// Writes the tree with each operation in parentheses.
fn write(tree: &Expr, text: &mut Vec<u8>) -> Result<(), Fail> {
    match &tree.kind {
        ExprKind::Var(name) => text.push(sign_of(*name))?,
        ExprKind::Apply(half, right) => {
            match &half.kind {
                ExprKind::Apply(head, left) => {
                    text.push(b'(')?;
                    write(left, text)?;
                    write(head, text)?;
                    write(right, text)?;
                    text.push(b')')?;
                }
                _ => text.push(b'?')?,
            }
        }
        _ => text.push(b'?')?,
    }
    Ok(())
}

/// The run has no clash, and this is its tree.
fn is_grouped(alloc: Global, rest: &[(u32, u8, u8)], text: &[u8]) -> Result<bool, Fail> {
    let answer = grouped(alloc, rest)?;
    let mut written = Vec::new(alloc);
    write(&answer.tree, &mut written)?;
    Ok(answer.clash.is_none() && written.as_slice() == text)
}

/// The run clashes at the operator of this column.
fn is_clash(alloc: Global, rest: &[(u32, u8, u8)], col: u32) -> Result<bool, Fail> {
    let answer = grouped(alloc, rest)?;
    match answer.clash {
        Some(operator) => Ok(operator.place == at(col)),
        None => Ok(false),
    }
}

#[test]
fn a_single_operand_is_the_tree(rt: HostRuntime) -> Result<(), Fail> {
    assert!(rt; is_grouped(rt.alloc(), [].as_slice(), b"a")?);
    let answer = grouped(rt.alloc(), [].as_slice())?;
    assert!(rt; answer.tree.place == at(1));
    Ok(())
}

#[test]
fn the_operator_of_the_greater_level_comes_first(rt: HostRuntime) -> Result<(), Fail> {
    let alloc = rt.alloc();
    let right = [(2, b'+', b'b'), (4, b'*', b'c')];
    let left = [(2, b'*', b'b'), (4, b'+', b'c')];
    let both = [
        (2, b'*', b'b'),
        (4, b'+', b'c'),
        (6, b'*', b'd'),
        (8, b'-', b'e'),
    ];
    assert!(rt; is_grouped(alloc, right.as_slice(), b"(a+(b*c))")?);
    assert!(rt; is_grouped(alloc, left.as_slice(), b"((a*b)+c)")?);
    assert!(rt; is_grouped(alloc, both.as_slice(), b"(((a*b)+(c*d))-e)")?);
    Ok(())
}

#[test]
fn a_chain_of_infixl_groups_from_the_left(rt: HostRuntime) -> Result<(), Fail> {
    let chain = [(2, b'-', b'b'), (4, b'+', b'c'), (6, b'-', b'd')];
    assert!(rt; is_grouped(rt.alloc(), chain.as_slice(), b"(((a-b)+c)-d)")?);
    Ok(())
}

#[test]
fn a_chain_of_infixr_groups_from_the_right(rt: HostRuntime) -> Result<(), Fail> {
    let alloc = rt.alloc();
    let chain = [(2, b':', b'b'), (4, b':', b'c'), (6, b':', b'd')];
    let mixed = [
        (2, b':', b'b'),
        (4, b'+', b'c'),
        (6, b':', b'd'),
        (8, b'$', b'e'),
    ];
    assert!(rt; is_grouped(alloc, chain.as_slice(), b"(a:(b:(c:d)))")?);
    assert!(rt; is_grouped(alloc, mixed.as_slice(), b"((a:((b+c):d))$e)")?);
    Ok(())
}

#[test]
fn a_chain_of_infix_clashes_at_its_second_operator(rt: HostRuntime) -> Result<(), Fail> {
    let alloc = rt.alloc();
    let two = [(2, b'=', b'b'), (4, b'=', b'c')];
    let three = [(2, b'=', b'b'), (4, b'<', b'c'), (6, b'=', b'd')];
    assert!(rt; is_clash(alloc, two.as_slice(), 4)?);
    assert!(rt; is_clash(alloc, three.as_slice(), 4)?);
    Ok(())
}

#[test]
fn a_looser_operator_keeps_two_of_infix_apart(rt: HostRuntime) -> Result<(), Fail> {
    let alloc = rt.alloc();
    let apart = [(2, b'=', b'b'), (4, b'$', b'c'), (6, b'=', b'd')];
    let inside = [(2, b'=', b'b'), (4, b'+', b'c'), (6, b'=', b'd')];
    assert!(rt; is_grouped(alloc, apart.as_slice(), b"((a=b)$(c=d))")?);
    assert!(rt; is_clash(alloc, inside.as_slice(), 6)?);
    Ok(())
}

#[test]
fn unlike_operators_of_one_level_clash(rt: HostRuntime) -> Result<(), Fail> {
    let alloc = rt.alloc();
    let left_right = [(2, b'@', b'b'), (4, b':', b'c')];
    let right_left = [(2, b':', b'b'), (4, b'@', b'c')];
    let left_neither = [(2, b'~', b'b'), (4, b'=', b'c')];
    let neither_left = [(2, b'=', b'b'), (4, b'~', b'c')];
    assert!(rt; is_clash(alloc, left_right.as_slice(), 4)?);
    assert!(rt; is_clash(alloc, right_left.as_slice(), 4)?);
    assert!(rt; is_clash(alloc, left_neither.as_slice(), 4)?);
    assert!(rt; is_clash(alloc, neither_left.as_slice(), 4)?);
    Ok(())
}

#[test]
fn the_first_clash_behind_a_good_front_is_told(rt: HostRuntime) -> Result<(), Fail> {
    let run = [
        (2, b'+', b'b'),
        (4, b'*', b'c'),
        (6, b':', b'd'),
        (8, b'*', b'e'),
        (10, b'@', b'f'),
        (12, b'=', b'g'),
        (14, b'=', b'h'),
    ];
    assert!(rt; is_clash(rt.alloc(), run.as_slice(), 10)?);
    Ok(())
}

#[test]
fn an_operator_without_declaration_is_infixl_9(rt: HostRuntime) -> Result<(), Fail> {
    let alloc = rt.alloc();
    let tighter = [(2, b'*', b'b'), (4, b'!', b'c')];
    let chain = [(2, b'!', b'b'), (4, b'!', b'c')];
    let beside = [(2, b'!', b'b'), (4, b'.', b'c')];
    assert!(rt; Fixity::STANDARD == declared(Fix::Left, 9));
    assert!(rt; is_grouped(alloc, tighter.as_slice(), b"(a*(b!c))")?);
    assert!(rt; is_grouped(alloc, chain.as_slice(), b"((a!b)!c)")?);
    assert!(rt; is_clash(alloc, beside.as_slice(), 4)?);
    Ok(())
}

#[test]
fn an_application_stands_at_the_operand_that_it_adds(rt: HostRuntime) -> Result<(), Fail> {
    let answer = grouped(rt.alloc(), [(2, b'+', b'b')].as_slice())?;
    assert!(rt; answer.tree.place == at(3));
    assert!(rt;
        match &answer.tree.kind {
            ExprKind::Apply(half, right) => {
                half.place == at(1)
                    && right.place == at(3)
                    && match &half.kind {
                        ExprKind::Apply(head, left) => head.place == at(2) && left.place == at(1),
                        _ => false,
                    }
            }
            _ => false,
        }
    );
    Ok(())
}
