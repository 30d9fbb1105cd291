use crate::shared::SharedTypes;
use hb_types::{Atom, Form};
use std::test::Fail;

#[test]
fn a_type_stands_once(rt: HostRuntime) -> Result<(), Fail> {
    let mut table = SharedTypes::new(rt.alloc());
    let unsigned = table.con(0)?;
    let maybe = table.con(14)?;
    let first = table.apply(maybe, unsigned)?;
    let second = table.apply(maybe, unsigned)?;
    assert!(rt; first == second);
    assert!(rt; table.types().len() == 3);
    assert!(rt; table.form(first) == Form::Apply(1, 0));
    assert!(rt; table.variable(2)? == 3);
    assert!(rt; table.number(8)? == 4);
    assert!(rt; table.form(4) == Form::Leaf(Atom::Nat(8)));
    Ok(())
}

#[test]
fn parts_that_are_not_there_make_an_unknown(rt: HostRuntime) -> Result<(), Fail> {
    let mut table = SharedTypes::new(rt.alloc());
    let place = table.apply(0, 1)?;
    assert!(rt; table.form(place) == Form::Unknown(0));
    assert!(rt; table.form(7) == Form::Unknown(0));
    Ok(())
}
