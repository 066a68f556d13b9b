//! Copies of values.

use ms_base::Bytes;
use ms_num::{Iv, Ranges};
use ms_trees::{Ground, Trees};
use ms_values::{Iv1, Texts, Value};
use std::alloc::{AllocError, Global};
use std::test::Fail;

fn bytes(alloc: Global, text: &[u8]) -> Result<Bytes, AllocError> {
    Ok(Bytes::from_vec(Vec::from_slice(alloc, text)?))
}

// "a", and a string that is undefined.
fn texts(alloc: Global) -> Result<Texts, AllocError> {
    let mut list = Vec::new(alloc);
    list.push(Some(bytes(alloc, b"a")?))?;
    list.push(None)?;
    Ok(Texts::from_vec(list))
}

fn are_texts(texts: &Texts) -> bool {
    match texts.as_slice() {
        [Some(text), None] => text.as_slice() == b"a".as_slice(),
        _ => false,
    }
}

fn trees(alloc: Global) -> Result<Trees, AllocError> {
    let mut trees = Trees::new(alloc);
    trees.push(Ground::Var(1))?;
    trees.push(Ground::Num(4))?;
    Ok(trees)
}

fn are_trees(trees: &Trees) -> bool {
    match trees.as_slice() {
        [Ground::Var(v), Ground::Num(n)] => *v == 1 && *n == 4,
        _ => false,
    }
}

const TWO: Iv1 = Iv1 { lo: 3, len: 2 };

const ONE: Iv1 = Iv1 { lo: 0, len: 1 };

// Which of the forms it is, where it has the value that was given; 0 where not.
fn form(value: Value) -> u8 {
    match &value {
        Value::Number(n) => if *n == -7 { 1 } else { 0 },
        Value::Truth(b) => if *b { 2 } else { 0 },
        Value::Set(set) => if set.size() == 2 { 3 } else { 0 },
        Value::Text(text) => if text.as_slice() == b"xy".as_slice() {
            4
        } else {
            0
        },
        Value::Tree(Ground::Undef) => 5,
        Value::Tree(_) => 0,
        Value::Trees1(r, trees) => if *r == TWO && are_trees(trees) { 6 } else { 0 },
        Value::Trees2(r, c, trees) => if *r == ONE && *c == TWO && are_trees(trees) {
            7
        } else {
            0
        },
        Value::Texts1(r, texts) => if *r == TWO && are_texts(texts) { 8 } else { 0 },
        Value::Texts2(r, c, texts) => if *r == ONE && *c == TWO && are_texts(texts) {
            9
        } else {
            0
        },
    }
}

fn copied(alloc: Global, value: Value) -> Result<Value, AllocError> {
    value.copy(alloc)
}

fn copied_form(alloc: Global, value: Value) -> Result<u8, AllocError> {
    Ok(form(copied(alloc, value)?))
}

#[test]
fn copies(rt: HostRuntime) -> Result<(), Fail> {
    let alloc = rt.alloc();
    assert_eq!(rt; copied_form(alloc, Value::Number(-7))?, 1);
    assert_eq!(rt; copied_form(alloc, Value::Truth(true))?, 2);
    let set = Ranges::from_iv(alloc, Iv::new(4, 5))?;
    assert_eq!(rt; copied_form(alloc, Value::Set(set))?, 3);
    assert_eq!(rt; copied_form(alloc, Value::Text(bytes(alloc, b"xy")?))?, 4);
    assert_eq!(rt; copied_form(alloc, Value::Tree(Ground::Undef))?, 5);
    assert_eq!(rt; copied_form(alloc, Value::Trees1(TWO, trees(alloc)?))?, 6);
    assert_eq!(rt;
        copied_form(alloc, Value::Trees2(ONE, TWO, trees(alloc)?))?,
        7
    );
    assert_eq!(rt; copied_form(alloc, Value::Texts1(TWO, texts(alloc)?))?, 8);
    assert_eq!(rt;
        copied_form(alloc, Value::Texts2(ONE, TWO, texts(alloc)?))?,
        9
    );
    assert!(rt; are_texts(&texts(alloc)?.copy(alloc)?));
    assert_eq!(rt; texts(alloc)?.into_vec().len(), 2);
    Ok(())
}
