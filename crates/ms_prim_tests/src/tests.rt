use ms_prim::{
    Cmp, Part, Primitive, Tie, cut_laws, fit_laws, meets, name_laws, names, settled_laws,
};
use ms_trees::Ground;
use std::process::Abort;
use std::test::Fail;

#[test]
fn products_are_exact(rt: HostRuntime) -> Result<(), Fail> {
    let product = Primitive::Product(Part::V(0), Part::V(1), 2);
    assert!(rt; meets(&product, &[3, 4, 12]));
    assert!(rt; !meets(&product, &[3, 4, 11]));
    assert!(rt; !meets(&product, &[1125899906842624, 1125899906842624, 0]));
    Ok(())
}

#[test]
fn quotients_are_cut_toward_zero(rt: HostRuntime) -> Result<(), Fail> {
    let quotient = Primitive::Quotient(Part::V(0), Part::V(1), 2);
    assert!(rt; meets(&quotient, &[-7, 2, -3]));
    assert!(rt; !meets(&quotient, &[4, 0, 2]));
    Ok(())
}

#[test]
fn remainders_have_the_sign_of_the_dividend(rt: HostRuntime) -> Result<(), Fail> {
    let remainder = Primitive::Remainder(Part::V(0), Part::V(1), 2);
    assert!(rt; meets(&remainder, &[-7, 2, -1]));
    assert!(rt; !meets(&remainder, &[4, 0, 0]));
    Ok(())
}

#[test]
fn absolute_values(rt: HostRuntime) -> Result<(), Fail> {
    let absolute = Primitive::Absolute(Part::V(0), 1);
    assert!(rt; meets(&absolute, &[-5, 5]));
    assert!(rt; !meets(&absolute, &[-5, -5]));
    Ok(())
}

#[test]
fn comparisons_are_tied(rt: HostRuntime) -> Result<(), Fail> {
    let held = Primitive::Compare(Cmp::Less, Part::V(0), Part::N(3), Tie::Holds);
    assert!(rt; meets(&held, &[2]));
    assert!(rt; !meets(&held, &[3]));
    let tied = Primitive::Compare(Cmp::AtMost, Part::V(0), Part::V(1), Tie::Iff(2));
    assert!(rt; meets(&tied, &[2, 2, 1]));
    assert!(rt; meets(&tied, &[3, 2, 0]));
    assert!(rt; !meets(&tied, &[3, 2, 1]));
    Ok(())
}

#[test]
fn names_follow_the_tree(rt: HostRuntime) -> Result<(), Fail> {
    let product = Primitive::Product(Part::V(3), Part::N(4), 2);
    assert!(rt; names(rt.alloc(), &product)?.as_slice() == [3, 2].as_slice());
    let copied = product.copy(rt.alloc())?;
    assert!(rt; names(rt.alloc(), &copied)?.as_slice() == [3, 2].as_slice());
    let whole = Primitive::Whole(Ground::BVar(7));
    assert!(rt; names(rt.alloc(), &whole)?.as_slice() == [7].as_slice());
    Ok(())
}

#[test]
fn laws(_rt: HostRuntime) -> Result<(), Fail> {
    fit_laws();
    settled_laws();
    name_laws();
    cut_laws();
    Ok(())
}
