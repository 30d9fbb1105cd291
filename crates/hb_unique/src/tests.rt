use crate::{
    Matched, Paired, Shape, UniqueTypes, match_types, may_agree, shape_of, take_equations,
    unknowns_of,
};
use hb_types::{Atom, Form, Types};
use hb_unknowns::Pair;
use std::test::Fail;

#[test]
fn the_same_type_has_one_place(rt: HostRuntime) -> Result<(), Fail> {
    let mut types = UniqueTypes::new(rt.alloc());
    let con = types.leaf(Atom::Con(2))?;
    let number = types.leaf(Atom::Nat(8))?;
    let whole = types.apply(con, number)?;
    assert!(rt; types.leaf(Atom::Con(2))? == con);
    assert!(rt; types.apply(con, number)? == whole);
    assert!(rt; shape_of(&types, whole) == Shape::At(2, number));
    assert!(rt; shape_of(&types, number) == Shape::Number(8));
    assert!(rt; shape_of(&types, con) == Shape::Alone(2));
    Ok(())
}

#[test]
fn an_unknown_stands_for_a_type(rt: HostRuntime) -> Result<(), Fail> {
    let mut types = UniqueTypes::new(rt.alloc());
    let first = types.open(0)?;
    let second = types.open(1)?;
    let number = types.leaf(Atom::Nat(8))?;
    types.mean(first, second)?;
    types.mean(second, first)?;
    types.mean(first, number)?;
    assert!(rt; shape_of(&types, first) == Shape::Number(8));
    assert!(rt; shape_of(&types, second) == Shape::Number(8));
    Ok(())
}

#[test]
fn a_copy_has_types_in_the_place_of_variables(rt: HostRuntime) -> Result<(), Fail> {
    let mut of = Types::new(rt.alloc());
    let variable = of.push(Form::Leaf(Atom::Var(0)))?;
    let con = of.push(Form::Leaf(Atom::Con(2)))?;
    let whole = of.push(Form::Apply(con, variable))?;
    let mut types = UniqueTypes::new(rt.alloc());
    let number = types.leaf(Atom::Nat(8))?;
    let copy = types.copy(&of, whole, [number].as_slice())?;
    assert!(rt; shape_of(&types, copy) == Shape::At(2, number));
    let places = types.take(&of)?;
    assert!(rt; places.len() == 3);
    Ok(())
}

#[test]
fn a_pattern_takes_what_stands_at_its_variables(rt: HostRuntime) -> Result<(), Fail> {
    let mut patterns = Types::new(rt.alloc());
    let variable = patterns.push(Form::Leaf(Atom::Var(0)))?;
    let con = patterns.push(Form::Leaf(Atom::Con(2)))?;
    let whole = patterns.push(Form::Apply(con, variable))?;
    let mut types = UniqueTypes::new(rt.alloc());
    let bit = types.leaf(Atom::Con(2))?;
    let number = types.leaf(Atom::Nat(8))?;
    let bits = types.apply(bit, number)?;
    let open = types.open(5)?;
    let heads = [whole, variable];
    let taken = match_types(rt.alloc(), &patterns, 1, &heads, &types, &[bits, number])?;
    match taken {
        Matched::Taken(of) => assert!(rt; of.as_slice() == [number].as_slice()),
        _ => assert!(rt; false),
    }
    let unlike = match_types(rt.alloc(), &patterns, 1, &heads, &types, &[bits, bit])?;
    assert!(rt; matches!(&unlike, Matched::Unlike));
    let stuck = match_types(rt.alloc(), &patterns, 1, &heads, &types, &[open, number])?;
    assert!(rt; matches!(&stuck, Matched::Open(5)));
    Ok(())
}

#[test]
fn types_of_other_constructors_have_no_common_instance(rt: HostRuntime) -> Result<(), Fail> {
    let mut types = Types::new(rt.alloc());
    let variable = types.push(Form::Leaf(Atom::Var(0)))?;
    let con = types.push(Form::Leaf(Atom::Con(2)))?;
    let other = types.push(Form::Leaf(Atom::Con(3)))?;
    let whole = types.push(Form::Apply(con, variable))?;
    let unlike = types.push(Form::Apply(other, variable))?;
    assert!(rt; may_agree(rt.alloc(), &types, &[whole], &[variable])?);
    assert!(rt; !may_agree(rt.alloc(), &types, &[whole], &[unlike])?);
    assert!(rt; !may_agree(rt.alloc(), &types, &[variable, con], &[con, whole])?);
    Ok(())
}

#[test]
fn equations_agree_or_clash_together(rt: HostRuntime) -> Result<(), Fail> {
    let mut types = Types::new(rt.alloc());
    let open = types.push(Form::Unknown(0))?;
    let con = types.push(Form::Leaf(Atom::Con(2)))?;
    let whole = types.push(Form::Apply(con, open))?;
    let mut unknowns = unknowns_of(rt.alloc(), &types)?;
    let circle = [Pair {
        left: open,
        right: whole,
    }];
    let fine = [Pair {
        left: open,
        right: con,
    }];
    assert!(rt; take_equations(rt.alloc(), &mut unknowns, &circle)? == Paired::Clashed);
    assert!(rt; take_equations(rt.alloc(), &mut unknowns, &fine)? == Paired::Agreed);
    Ok(())
}
