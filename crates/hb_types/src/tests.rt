use crate::atom::Atom;
use crate::instance_use::{InstanceUse, UseForm, no_uses, push_use};
use crate::kind::Kind;
use crate::kind_table::KindForm;
use crate::table::{Form, Types};
use crate::types::Ty;
use hb_base::List;
use std::test::Fail;

/// The form of a part of a kind.
fn part(kind: &Kind, place: usize) -> Option<KindForm> {
    let parts = kind.parts.as_ref()?;
    if place < parts.len() {
        Some(parts.form(place))
    } else {
        None
    }
}

/// The form of the type at a place.
fn form_at(types: &Types, place: usize) -> Option<Form> {
    if place < types.len() {
        Some(types.form(place))
    } else {
        None
    }
}

#[test]
fn a_kind_takes_the_first_to_the_second(rt: HostRuntime) -> Result<(), Fail> {
    let from = Kind::arrow(rt.alloc(), Kind::nat(), Kind::area())?;
    let kind = Kind::arrow(rt.alloc(), from, Kind::star())?;
    assert!(rt; kind.form == KindForm::Arrow(2, 3));
    assert!(rt; part(&kind, 3) == Some(KindForm::Star));
    assert!(rt; part(&kind, 2) == Some(KindForm::Arrow(0, 1)));
    assert!(rt; part(&kind, 1) == Some(KindForm::Area));
    assert!(rt; part(&kind, 0) == Some(KindForm::Nat));
    Ok(())
}

#[test]
fn a_table_shares_its_parts(rt: HostRuntime) -> Result<(), Fail> {
    let mut types = Types::new(rt.alloc());
    let con = types.push(Form::Leaf(Atom::Con(3)))?;
    let whole = types.push(Form::Apply(con, con))?;
    assert!(rt; types.len() == 2);
    assert!(rt; types.form(whole) == Form::Apply(0, 0));
    assert!(rt; types.form(con) == Form::Leaf(Atom::Con(3)));
    Ok(())
}

#[test]
fn a_type_is_the_last_of_its_table(rt: HostRuntime) -> Result<(), Fail> {
    let leaf = Ty::leaf(rt.alloc(), Atom::Nat(7))?;
    let table = leaf.table();
    assert!(rt; table.form(table.len() - 1) == Form::Leaf(Atom::Nat(7)));
    let open = Ty::unknown(rt.alloc(), 4)?;
    let table = open.table();
    assert!(rt; table.form(table.len() - 1) == Form::Unknown(4));
    Ok(())
}

#[test]
fn a_type_is_applied_to_another_one(rt: HostRuntime) -> Result<(), Fail> {
    let con = Ty::leaf(rt.alloc(), Atom::Con(1))?;
    let pair = Ty::apply(con, Ty::leaf(rt.alloc(), Atom::Nat(7))?)?;
    let open = Ty::apply(
        Ty::leaf(rt.alloc(), Atom::Con(2))?,
        Ty::unknown(rt.alloc(), 4)?,
    )?;
    let whole = Ty::apply(pair, open)?;
    let table = whole.table();
    assert!(rt; table.len() == 7);
    assert!(rt; form_at(table, 6) == Some(Form::Apply(2, 5)));
    assert!(rt; form_at(table, 5) == Some(Form::Apply(3, 4)));
    assert!(rt; form_at(table, 4) == Some(Form::Unknown(4)));
    assert!(rt; form_at(table, 2) == Some(Form::Apply(0, 1)));
    Ok(())
}

#[test]
fn types_stand_in_the_place_of_variables(rt: HostRuntime) -> Result<(), Fail> {
    let mut scheme = Types::new(rt.alloc());
    let first = scheme.push(Form::Leaf(Atom::Var(0)))?;
    let second = scheme.push(Form::Leaf(Atom::Var(1)))?;
    scheme.push(Form::Apply(second, first))?;
    let mut types = Types::new(rt.alloc());
    let con = types.push(Form::Leaf(Atom::Con(3)))?;
    let nat = types.push(Form::Leaf(Atom::Nat(5)))?;
    let places = types.put(rt.alloc(), &scheme, [con, nat].as_slice())?;
    assert!(rt; places.as_slice() == [con, nat, 2].as_slice());
    assert!(rt; types.len() == 3);
    assert!(rt; form_at(&types, 2) == Some(Form::Apply(nat, con)));
    Ok(())
}

#[test]
fn types_are_the_same_where_their_first_places_are(rt: HostRuntime) -> Result<(), Fail> {
    let mut types = Types::new(rt.alloc());
    let con = types.push(Form::Leaf(Atom::Con(3)))?;
    let again = types.push(Form::Leaf(Atom::Con(3)))?;
    let nat = types.push(Form::Leaf(Atom::Nat(3)))?;
    types.push(Form::Apply(con, nat))?;
    types.push(Form::Apply(again, nat))?;
    types.push(Form::Apply(nat, con))?;
    let first = types.normal(rt.alloc())?;
    assert!(rt; first.as_slice() == [0, 0, 2, 3, 3, 5].as_slice());
    Ok(())
}

#[test]
fn an_instance_is_taken_at_types(rt: HostRuntime) -> Result<(), Fail> {
    let mut types = Types::new(rt.alloc());
    let con = types.push(Form::Leaf(Atom::Con(1)))?;
    let mut places = List::of(Vec::new(rt.alloc()));
    places.push(con)?;
    let mut uses = no_uses(rt.alloc());
    let form = UseForm {
        instance: 9,
        types: places,
        context: List::of(Vec::new(rt.alloc())),
    };
    push_use(&types, &mut uses, form)?;
    let found = InstanceUse::of(types, uses);
    assert!(rt; found.types.len() == 1);
    assert!(rt; found.uses.len() == 1);
    Ok(())
}
