//! Numbers, piles and what is shared.

use ms_num::{Iv, Ranges};
use ms_values::{Elements, Narrow, Numbers, Pile, Shared};
use std::alloc::{AllocError, Global};
use std::test::Fail;

fn number(n: i64) -> Option<i64> {
    match Narrow::new(n) {
        Some(n) => Some(n.get()),
        None => None,
    }
}

#[test]
fn narrow_numbers(rt: HostRuntime) {
    let most = 1125899906842624;
    assert_eq!(rt; number(0), Some(0));
    assert_eq!(rt; number(most), Some(most));
    assert_eq!(rt; number(-most), Some(-most));
    assert_eq!(rt; number(most + 1), None);
    assert_eq!(rt; number(-most - 1), None);
    assert_eq!(rt; Narrow::least(Iv::new(-3, 5)).get(), -3);
}

fn next(numbers: &mut Numbers) -> Option<i64> {
    match numbers.take() {
        Some(n) => Some(n.get()),
        None => None,
    }
}

// 1..2 and 4..5
fn two_ranges(alloc: Global) -> Result<Numbers, AllocError> {
    let set = Ranges::from_list(alloc, &[5, 2, 4, 1])?;
    Ok(Numbers::of(Shared::new(alloc, set)?))
}

// The numbers of two ranges in ascending order, and then the empty set.
#[test]
fn numbers_of_sets(rt: HostRuntime) -> Result<(), Fail> {
    let alloc = rt.alloc();
    let mut numbers = two_ranges(alloc)?;
    assert_eq!(rt;
        [next(&mut numbers), next(&mut numbers)],
        [Some(1), Some(2)]
    );
    assert_eq!(rt;
        [next(&mut numbers), next(&mut numbers)],
        [Some(4), Some(5)]
    );
    assert_eq!(rt; [next(&mut numbers), next(&mut numbers)], [None, None]);
    let mut none = Numbers::of(Shared::new(alloc, Ranges::empty(alloc))?);
    assert_eq!(rt; next(&mut none), None);
    Ok(())
}

#[test]
fn piles(rt: HostRuntime) -> Result<(), Fail> {
    let mut pile = Pile::new(rt.alloc());
    pile.push(7u8)?;
    pile.push(8)?;
    pile.push(9)?;
    assert_eq!(rt; pile.len(), 3);
    assert_eq!(rt; pile.get(0).copied(), Some(9));
    assert_eq!(rt; pile.get(2).copied(), Some(7));
    assert_eq!(rt; pile.get(3).copied(), None);
    assert_eq!(rt; pile.pop(), Some(9));
    assert_eq!(rt; pile.pop(), Some(8));
    assert_eq!(rt; pile.pop(), Some(7));
    assert_eq!(rt; pile.pop(), None);
    Ok(())
}

#[test]
fn elements(rt: HostRuntime) -> Result<(), Fail> {
    let mut few = Elements::new(rt.alloc());
    few.push(4u8)?;
    few.push(6)?;
    assert_eq!(rt; few.len(), 2);
    let mut again = Elements::from_vec(few.into_vec());
    assert_eq!(rt; again.as_slice(), [4, 6].as_slice());
    let mut more = Elements::new(rt.alloc());
    more.push(7)?;
    again.append(more)?;
    assert_eq!(rt; again.as_slice(), [4, 6, 7].as_slice());
    Ok(())
}

// What has two owners is not given back; what has one is.
#[test]
fn shared_values(rt: HostRuntime) -> Result<(), Fail> {
    let first = Shared::new(rt.alloc(), 5u8)?;
    let second = first.share()?;
    assert_eq!(rt; *second.get(), 5);
    match first.into_inner() {
        Ok(_) => assert!(rt; false),
        Err(still) => assert_eq!(rt; *still.get(), 5),
    }
    match second.into_inner() {
        Ok(value) => assert_eq!(rt; value, 5),
        Err(_) => assert!(rt; false),
    }
    Ok(())
}
