use ms_num::{Iv, Ranges, Sets};
use std::test::Fail;

#[test]
fn copies(rt: HostRuntime) -> Result<(), Fail> {
    let alloc = rt.alloc();
    let set = Ranges::from_iv(alloc, Iv::new(4, 5))?;
    let sets = Sets::from_vec(vec![in alloc; set]?);
    let copied = sets.copy(alloc)?;
    assert_eq!(rt; copied.as_slice().len(), 1);
    assert_eq!(rt; copied.as_slice()[0].ranges(), [Iv::new(4, 5)].as_slice());
    assert_eq!(rt; sets.into_vec().len(), 1);
    Ok(())
}
