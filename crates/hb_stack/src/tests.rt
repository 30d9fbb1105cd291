use crate::Stack;
use std::test::Fail;

#[test]
fn the_last_item_put_is_the_first_taken(rt: HostRuntime) -> Result<(), Fail> {
    let mut stack = Stack::new(rt.alloc());
    assert!(rt; stack.is_empty());
    stack.push(1u32)?;
    stack.push(2u32)?;
    assert_eq!(rt; stack.top(), Some(2));
    assert_eq!(rt; stack.as_slice(), [1, 2].as_slice());
    assert_eq!(rt; stack.pop(), Some(2));
    assert_eq!(rt; stack.pop(), Some(1));
    assert_eq!(rt; stack.pop(), None);
    Ok(())
}

#[test]
fn all_items_come_off_in_the_order_of_their_putting(rt: HostRuntime) -> Result<(), Fail> {
    let mut stack = Stack::new(rt.alloc());
    stack.push(1u32)?;
    stack.push(2u32)?;
    assert_eq!(rt; stack.len(), 2);
    assert_eq!(rt; stack.take_all(rt.alloc()).as_slice(), [1, 2].as_slice());
    assert!(rt; stack.is_empty());
    stack.push(3u32)?;
    stack.push(4u32)?;
    assert_eq!(rt; stack.into_list().as_slice(), [4, 3].as_slice());
    Ok(())
}
