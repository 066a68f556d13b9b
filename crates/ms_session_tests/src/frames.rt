use ms_session::Budget;
use std::test::Fail;

#[test]
fn frames(rt: HostRuntime) -> Result<(), Fail> {
    let mut budget = Budget::new(rt.alloc(), 5)?;
    assert_eq!(rt; budget.empty_frame(), None);
    budget.spend();
    assert_eq!(rt; (budget.left(0), budget.number(0)), (4, 5));
    budget.push(1)?;
    budget.spend();
    budget.push(0)?;
    assert_eq!(rt; (budget.len(), budget.left(0), budget.left(1)), (3, 3, 0));
    assert_eq!(rt; budget.empty_frame(), Some(1));
    budget.pop();
    budget.pop();
    assert_eq!(rt; (budget.len(), budget.empty_frame()), (1, None));
    budget.push(0)?;
    assert_eq!(rt; budget.empty_frame(), Some(1));
    let mut budget = Budget::new(rt.alloc(), 5)?;
    budget.push(0)?;
    assert_eq!(rt; budget.empty_frame(), Some(1));
    Ok(())
}
