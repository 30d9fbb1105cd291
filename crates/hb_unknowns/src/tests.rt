ghost use Rattle.std.specs.Prelude.{◌≡◌, ◌<◌, ◌+◌, ◌≤◌, IfOk, OnOk};
ghost use Rattle.hb_unknowns.specs.Equations.{type_count};

use crate::error::EquateError;
use crate::full::FullTypes;
use crate::node::Pair;
use crate::normal::NormalTypes;
use crate::unknowns::Unknowns;
use hb_base::Memory;
use hb_types::{Atom, Form, Kind};
use std::alloc::Global;
use std::test::Fail;

/// So many unknowns, at the places from 0.
fn unknowns(alloc: Global, count: usize) -> Result<Unknowns, Memory>
    ensures { IfOk result (λ u. type_count u ≡ count) }
{
    let mut all = Unknowns::new(alloc);
    for _number in 0..count {
        let _unknown = all.fresh(Kind::star())?;
    }
    Ok(all)
}

/// The pair of two types: the constructor 0 applied to both.
fn pair(all: &mut Unknowns, first: usize, second: usize) -> Result<usize, Memory>
    requires first { first < type_count all.old }
    requires second { second < type_count all.old }
    ensures grown { IfOk result (λ place. (place < type_count all.new) × (type_count all.new ≡ type_count all.old + 3)) }
{
    let con = all.leaf(Atom::Con(0))?;
    let half = all.apply(con, first)?;
    let whole = all.apply(half, second)?;
    Ok(whole)
}

/// Whether the equation was taken in.
fn takes(all: &mut Unknowns, a: usize, b: usize) -> bool
    requires a_known { a < type_count all.old }
    requires b_known { b < type_count all.old }
    ensures { type_count all.new ≡ type_count all.old }
{
    match all.equate(a, b) {
        Ok(()) => true,
        Err(_) => false,
    }
}

#[test]
fn a_type_is_no_part_of_itself(rt: HostRuntime) -> Result<(), Fail> {
    let mut all = unknowns(rt.alloc(), 2)?;
    let whole = pair(&mut all, 0, 1)?;
    assert!(rt; matches!(all.equate(0, whole), Err(EquateError::Clash)));
    let con = all.leaf(Atom::Con(1))?;
    assert!(rt; takes(&mut all, 0, con));
    Ok(())
}

#[test]
fn numbers_and_constructors_differ(rt: HostRuntime) -> Result<(), Fail> {
    let mut all = unknowns(rt.alloc(), 1)?;
    let three = all.leaf(Atom::Nat(3))?;
    let four = all.leaf(Atom::Nat(4))?;
    let con = all.leaf(Atom::Con(3))?;
    let again = all.leaf(Atom::Nat(3))?;
    assert!(rt; takes(&mut all, 0, three));
    assert!(rt; !takes(&mut all, 0, four));
    assert!(rt; !takes(&mut all, con, 0));
    assert!(rt; takes(&mut all, again, 0));
    Ok(())
}

#[test]
fn after_a_clash_all_is_as_before(rt: HostRuntime) -> Result<(), Fail> {
    let mut all = unknowns(rt.alloc(), 4)?;
    let three = all.leaf(Atom::Nat(3))?;
    let four = all.leaf(Atom::Nat(4))?;
    let left = pair(&mut all, 0, three)?;
    let right = pair(&mut all, 1, four)?;
    assert!(rt; takes(&mut all, 0, 2));
    assert!(rt; !takes(&mut all, left, right));
    assert!(rt; takes(&mut all, 0, three));
    assert!(rt; takes(&mut all, 1, four));
    assert!(rt; !takes(&mut all, 2, four));
    Ok(())
}

#[test]
fn a_long_chain_is_taken_in(rt: HostRuntime) -> Result<(), Fail> {
    let mut all = unknowns(rt.alloc(), 100_001)?;
    for number in 0..100_000 {
        assert!(rt; takes(&mut all, number, number + 1));
    }
    let one = all.leaf(Atom::Con(1))?;
    let two = all.leaf(Atom::Con(2))?;
    assert!(rt; takes(&mut all, 0, one));
    assert!(rt; !takes(&mut all, 100_000, two));
    Ok(())
}

#[test]
fn forty_nested_pairs_take_forty_nodes(rt: HostRuntime) -> Result<(), Fail> {
    let mut all = unknowns(rt.alloc(), 41)?;
    let before = all.len();
    for number in 0..40 {
        let whole = pair(&mut all, number, number)?;
        assert!(rt; number + 1 < all.len());
        assert!(rt; takes(&mut all, number + 1, whole));
    }
    assert!(rt; all.len() == before + 120);
    let one = all.leaf(Atom::Con(1))?;
    assert!(rt; 0 < one);
    assert!(rt; takes(&mut all, 0, one));
    let full = all.full(rt.alloc())?;
    assert!(rt; full.types.len() < 500);
    Ok(())
}

#[test]
fn deep_types_are_equated(rt: HostRuntime) -> Result<(), Fail> {
    let mut all = unknowns(rt.alloc(), 2)?;
    let con = all.leaf(Atom::Con(1))?;
    let mut left = 0;
    let mut right = 1;
    for _level in 0..100_000 {
        left = all.apply(con, left)?;
        right = all.apply(con, right)?;
    }
    assert!(rt; takes(&mut all, left, right));
    assert!(rt; takes(&mut all, 0, con));
    assert!(rt; matches!(all.equate(1, left), Err(EquateError::Clash)));
    let full = all.full(rt.alloc())?;
    assert!(rt; full.types.len() < 500_000);
    Ok(())
}

#[test]
fn forced_unknowns_are_replaced_and_others_stay(rt: HostRuntime) -> Result<(), Fail> {
    let mut all = unknowns(rt.alloc(), 3)?;
    let five = all.leaf(Atom::Nat(5))?;
    let half = all.apply(five, 1)?;
    assert!(rt; takes(&mut all, 0, half));
    let before = all.full(rt.alloc())?;
    assert!(rt; form_of(&before, 0) == Some(Form::Unknown(0)));
    let con = all.leaf(Atom::Con(2))?;
    assert!(rt; takes(&mut all, 1, con));
    let after = all.full(rt.alloc())?;
    assert!(rt; matches!(form_of(&after, 0), Some(Form::Apply(_, _))));
    assert!(rt; form_of(&after, 1) == Some(Form::Leaf(Atom::Con(2))));
    assert!(rt; form_of(&after, 2) == Some(Form::Unknown(2)));
    Ok(())
}

/// The form of the full type of a place.
fn form_of(full: &FullTypes, place: usize) -> Option<Form> {
    let at = full.places.as_slice().get(place)?;
    if *at < full.types.len() {
        Some(full.types.form(*at))
    } else {
        None
    }
}

#[test]
fn many_equations_are_taken_at_once_or_none(rt: HostRuntime) -> Result<(), Fail> {
    let mut all = unknowns(rt.alloc(), 2)?;
    let one = all.leaf(Atom::Con(1))?;
    let two = all.leaf(Atom::Con(2))?;
    let same = Pair { left: 0, right: 1 };
    let first = Pair {
        left: 0,
        right: one,
    };
    let second = Pair {
        left: 1,
        right: two,
    };
    let clash = all.equate_all([same, first, second].as_slice());
    assert!(rt; matches!(clash, Err(EquateError::Clash)));
    let good = all.equate_all([first, second].as_slice());
    assert!(rt; matches!(good, Ok(())));
    Ok(())
}

/// The form of the normal type of a place.
fn normal_form_of(normal: &NormalTypes, place: usize) -> Option<Form> {
    let at = normal.places.as_slice().get(place)?;
    if *at < normal.types.len() {
        Some(normal.types.form(*at))
    } else {
        None
    }
}

#[test]
fn one_unknown_stands_for_all_that_are_equated(rt: HostRuntime) -> Result<(), Fail> {
    let mut all = unknowns(rt.alloc(), 4)?;
    let con = all.leaf(Atom::Con(2))?;
    let half = all.apply(con, 1)?;
    assert!(rt; takes(&mut all, 0, half));
    assert!(rt; takes(&mut all, 1, 2));
    let normal = all.normal(rt.alloc())?;
    assert!(rt; normal_form_of(&normal, 1) == normal_form_of(&normal, 2));
    assert!(rt; matches!(normal_form_of(&normal, 1), Some(Form::Unknown(_))));
    assert!(rt; normal_form_of(&normal, 1) != normal_form_of(&normal, 3));
    assert!(rt; normal_form_of(&normal, 0) == normal_form_of(&normal, half));
    assert!(rt; matches!(normal_form_of(&normal, 0), Some(Form::Apply(_, _))));
    Ok(())
}
