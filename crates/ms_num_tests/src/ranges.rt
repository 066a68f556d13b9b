use ms_num::{Intervals, Iv, Ranges, set_law};
use std::test::Fail;

#[test]
fn cuts(rt: HostRuntime) -> Result<(), Fail> {
    let alloc = rt.alloc();
    let whole = Ranges::from_iv(alloc, Iv::new(1, 5))?;
    assert_eq!(rt; whole.ranges(), [Iv::new(1, 5)].as_slice());
    let holed = whole.without(alloc, 3)?;
    assert_eq!(rt; holed.ranges(), [Iv::new(1, 2), Iv::new(4, 5)].as_slice());
    assert_eq!(rt;
        holed.at_most(alloc, 2)?.ranges(),
        [Iv::new(1, 2)].as_slice()
    );
    assert_eq!(rt;
        holed.at_least(alloc, 5)?.ranges(),
        [Iv::new(5, 5)].as_slice()
    );
    assert_eq!(rt;
        (holed.has(2), holed.has(3), holed.has(4)),
        (true, false, true)
    );
    assert_eq!(rt;
        (holed.size(), holed.lo(), holed.hi()),
        (4, Some(1), Some(5))
    );
    Ok(())
}

#[test]
fn makes(rt: HostRuntime) -> Result<(), Fail> {
    let alloc = rt.alloc();
    let listed = Ranges::from_list(alloc, &[5, 4])?;
    assert_eq!(rt; listed.ranges(), [Iv::new(4, 5)].as_slice());
    assert_eq!(rt; listed.copy(alloc)?.ranges(), [Iv::new(4, 5)].as_slice());
    let doubled = Ranges::from_list(alloc, &[3, 1, 3, 1])?;
    assert_eq!(rt; doubled.ranges(), [Iv::single(1), Iv::single(3)].as_slice());
    let empty = Ranges::empty(alloc);
    assert_eq!(rt;
        (empty.has(0), empty.size(), empty.lo(), empty.hi()),
        (false, 0, None, None)
    );
    set_law();
    Ok(())
}

#[test]
fn intervals_of_sets(rt: HostRuntime) -> Result<(), Fail> {
    let alloc = rt.alloc();
    let holed = Ranges::from_list(alloc, &[7, -2, 3])?;
    let whole = Ranges::from_iv(alloc, Iv::new(-2, 7))?;
    assert_eq!(rt; whole.ends(), Iv::new(-2, 7));
    assert_eq!(rt; holed.declared_interval(), Iv::new(-2, 7));
    assert_eq!(rt; Ranges::empty(alloc).declared_interval(), Iv::single(0));
    let sets = vec![in alloc; holed, Ranges::empty(alloc)]?;
    let read = sets.as_slice();
    assert_eq!(rt; read_at(read, 0), Some(Iv::new(-2, 7)));
    assert_eq!(rt; read_at(read, 1), Some(Iv::single(0)));
    assert_eq!(rt; read_at(read, 2), None);
    let listed = [Iv::new(1, 4)];
    assert_eq!(rt; read_at(listed.as_slice(), 0), Some(Iv::new(1, 4)));
    assert_eq!(rt; read_at(listed.as_slice(), 1), None);
    Ok(())
}

// The interval of a variable, whatever has it.
fn read_at<B: Intervals>(sets: B, variable: u32) -> Option<Iv> {
    sets.interval(variable)
}
