// Each public call once, with ample memory. Expected values are by hand.
use choice_stack::ChoiceStack;
use std::test::Fail;

#[test]
fn keeps_the_oldest(rt: HostRuntime) -> Result<(), Fail> {
    let mut stack: ChoiceStack<u32> = ChoiceStack::new(rt.alloc());
    assert_eq!(rt; stack.top(), None);
    assert_eq!(rt; stack.pop(), None);
    for choice in [10, 20, 30, 40] {
        stack.push(choice)?;
    }
    assert_eq!(rt; stack.len(), 4);
    assert_eq!(rt; stack.top(), Some(&40));
    assert_eq!(rt; stack.pop(), Some(40));
    stack.cut_to(3);
    assert_eq!(rt; stack.top(), Some(&30));
    stack.cut_to(1);
    assert_eq!(rt; stack.len(), 1);
    assert_eq!(rt; stack.pop(), Some(10));
    assert_eq!(rt; stack.pop(), None);
    Ok(())
}
