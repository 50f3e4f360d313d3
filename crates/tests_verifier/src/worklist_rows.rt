use body_verifier::Worklist;
use std::test::Fail;

/// Three pushes of two numbers: each comes once, the older one first.
#[test]
fn a_number_waits_once(rt: HostRuntime) -> Result<(), Fail> {
    let mut list = Worklist::new(rt.alloc(), 3)?;
    list.push(1);
    list.push(2);
    list.push(1);
    assert!(rt; list.holds(1));
    assert!(rt; !list.holds(0));
    assert_eq!(rt; list.pop(), Some(1));
    assert!(rt; !list.holds(1));
    assert_eq!(rt; list.pop(), Some(2));
    assert_eq!(rt; list.pop(), None);
    Ok(())
}
