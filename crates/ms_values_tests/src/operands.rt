//! Operands once more.

use ms_base::Bytes;
use ms_num::{Iv, Ranges};
use ms_trees::{Enclosure, Ground};
use ms_values::{
    Array, Cells, Elements, IndexRange, Indices, Kind, Narrow, Operand, Placed, Shared,
};
use sqlite_items::Boxed;
use std::alloc::{AllocError, Global};
use std::test::Fail;

fn variable(alloc: Global) -> Result<Placed, AllocError> {
    Ok(Placed {
        tree: Boxed::new(alloc, Ground::Var(3))?,
        enclosure: Enclosure {
            interval: Some(Iv::new(0, 2)),
            may_be_undefined: false,
            may_be_true: false,
            may_be_false: false,
        },
        size: 1,
        nesting: 1,
    })
}

fn is_variable(x: &Placed) -> bool {
    match x.tree.get() {
        Ground::Var(v) => *v == 3 && x.size == 1 && x.nesting == 1,
        _ => false,
    }
}

fn is_five(n: Option<Narrow>) -> bool {
    match n {
        Some(n) => n.get() == 5,
        None => false,
    }
}

fn grid(alloc: Global, low: Narrow) -> Result<Array, AllocError> {
    let mut truths = Elements::new(alloc);
    truths.push(true)?;
    truths.push(false)?;
    Ok(Array {
        indices: Indices::Grid(IndexRange { low, count: 1 }, IndexRange { low, count: 2 }),
        cells: Cells::Truths(truths),
    })
}

fn is_grid(array: &Array) -> bool {
    match array.indices {
        Indices::Grid(rows, columns) => {
            rows.low.get() == 5 && rows.count == 1 && columns.count == 2 && has_cells(&array.cells)
        }
        Indices::Line(_) => false,
    }
}

fn has_cells(cells: &Cells) -> bool {
    match cells {
        Cells::Truths(truths) => truths.as_slice() == [true, false].as_slice(),
        _ => false,
    }
}

// Which of the forms it is, where it has the value that was given; 0 where not.
fn form(x: &Operand) -> u8 {
    match x {
        Operand::Number(n) => if is_five(*n) { 1 } else { 0 },
        Operand::Truth(b) => if *b { 2 } else { 0 },
        Operand::Set(Some(set)) => if set.get().size() == 3 { 3 } else { 0 },
        Operand::Set(None) => 4,
        Operand::Text(Some(text)) => if text.get().as_slice() == b"ab".as_slice() {
            5
        } else {
            0
        },
        Operand::Text(None) => 6,
        Operand::Integer(x) => if is_variable(x) { 7 } else { 0 },
        Operand::Condition(x) => if is_variable(x) { 8 } else { 0 },
        Operand::Array(array) => if is_grid(array.get()) { 9 } else { 0 },
        Operand::NoArray(kind) => if *kind == Kind::Text { 10 } else { 0 },
    }
}

fn shared_form(alloc: Global, x: Operand) -> Result<u8, AllocError> {
    Ok(form(&x.share(alloc)?))
}

#[test]
fn shared_operands(rt: HostRuntime) -> Result<(), Fail> {
    let alloc = rt.alloc();
    let five = Narrow::least(Iv::single(5));
    assert_eq!(rt; shared_form(alloc, Operand::Number(Some(five)))?, 1);
    assert_eq!(rt; shared_form(alloc, Operand::Truth(true))?, 2);
    let set = Shared::new(alloc, Ranges::from_iv(alloc, Iv::new(1, 3))?)?;
    assert_eq!(rt; shared_form(alloc, Operand::Set(Some(set)))?, 3);
    assert_eq!(rt; shared_form(alloc, Operand::Set(None))?, 4);
    let text = Shared::new(alloc, Bytes::from_vec(Vec::from_slice(alloc, b"ab")?))?;
    assert_eq!(rt; shared_form(alloc, Operand::Text(Some(text)))?, 5);
    assert_eq!(rt; shared_form(alloc, Operand::Text(None))?, 6);
    assert_eq!(rt; shared_form(alloc, Operand::Integer(variable(alloc)?))?, 7);
    assert_eq!(rt;
        shared_form(alloc, Operand::Condition(variable(alloc)?))?,
        8
    );
    let array = Shared::new(alloc, grid(alloc, five)?)?;
    assert_eq!(rt; shared_form(alloc, Operand::Array(array))?, 9);
    assert_eq!(rt; shared_form(alloc, Operand::NoArray(Kind::Text))?, 10);
    Ok(())
}
