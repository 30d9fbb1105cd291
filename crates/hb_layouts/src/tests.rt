use crate::order::dependency_order;
use std::test::Fail;

#[test]
fn each_thing_comes_after_what_it_needs(rt: HostRuntime) -> Result<(), Fail> {
    let mut needs = Vec::new(rt.alloc());
    for needed in [&[2_usize, 1][..], &[], &[1], &[0, 2]] {
        needs.push(Vec::from_slice(rt.alloc(), needed)?)?;
    }
    let order = dependency_order(rt.alloc(), &needs)?;
    assert!(rt; order.as_slice() == [1, 2, 0, 3].as_slice());
    Ok(())
}

#[test]
fn a_circle_ends(rt: HostRuntime) -> Result<(), Fail> {
    let mut needs = Vec::new(rt.alloc());
    for needed in [&[1_usize][..], &[0], &[9]] {
        needs.push(Vec::from_slice(rt.alloc(), needed)?)?;
    }
    let order = dependency_order(rt.alloc(), &needs)?;
    assert!(rt; order.len() == 3);
    Ok(())
}
