//! What is read of operands.

use crate::samples::{Form, Sample, form_of, operand, plain};
use ms_rules::{
    bit_number, condition_of, either_variable, elements_of, integer, integer_of, is_logical,
    is_variable, known_number, nesting_of, no_number, no_truth, number, number_of, set_of, text_of,
    truth, truth_of, undefined_of,
};
use ms_tree_nodes::leaves::truth_leaf;
use ms_values::{Kind, Operand};
use std::alloc::{AllocError, Global};
use std::test::Fail;

// Whether it is variable, is a Boolean, and is true.
fn facts(alloc: Global, which: Sample) -> Result<[bool; 3], AllocError> {
    let x = operand(alloc, which)?;
    Ok([is_variable(&x), is_logical(&x), truth_of(&x)])
}

#[test]
fn kinds_of_operands(rt: HostRuntime) -> Result<(), Fail> {
    let alloc = rt.alloc();
    assert_eq!(rt; facts(alloc, Sample::Five)?, [false, false, false]);
    assert_eq!(rt; facts(alloc, Sample::Yes)?, [false, true, true]);
    assert_eq!(rt; facts(alloc, Sample::Integer)?, [true, false, false]);
    assert_eq!(rt; facts(alloc, Sample::Condition)?, [true, true, false]);
    assert_eq!(rt; facts(alloc, Sample::Conditions)?, [true, false, false]);
    assert_eq!(rt; facts(alloc, Sample::NoArray)?, [true, false, false]);
    Ok(())
}

fn either(alloc: Global, first: Sample, second: Sample) -> Result<bool, AllocError> {
    let x = operand(alloc, first)?;
    let y = operand(alloc, second)?;
    Ok(either_variable(&x, &y))
}

fn number_read(alloc: Global, which: Sample) -> Result<Option<i64>, AllocError> {
    let x = operand(alloc, which)?;
    Ok(plain(number_of(&x)))
}

fn number_taken(alloc: Global, which: Sample) -> Result<Option<i64>, AllocError> {
    Ok(plain(number(operand(alloc, which)?)))
}

fn size_of_set(alloc: Global, which: Sample) -> Result<u64, AllocError> {
    match set_of(operand(alloc, which)?) {
        Some(set) => Ok(set.get().size()),
        None => Ok(0),
    }
}

fn is_text(alloc: Global, which: Sample) -> Result<bool, AllocError> {
    match text_of(operand(alloc, which)?) {
        Some(text) => Ok(text.get().as_slice() == b"ab".as_slice()),
        None => Ok(false),
    }
}

#[test]
fn known_values(rt: HostRuntime) -> Result<(), Fail> {
    let alloc = rt.alloc();
    assert!(rt; either(alloc, Sample::Five, Sample::Integer)?);
    assert!(rt; !either(alloc, Sample::Five, Sample::Yes)?);
    assert_eq!(rt; number_read(alloc, Sample::Five)?, Some(5));
    assert_eq!(rt; number_taken(alloc, Sample::Yes)?, Some(1));
    assert_eq!(rt; number_taken(alloc, Sample::Integer)?, None);
    assert!(rt; truth(operand(alloc, Sample::Yes)?));
    assert!(rt; !truth(operand(alloc, Sample::Five)?));
    assert_eq!(rt; size_of_set(alloc, Sample::Set)?, 3);
    assert!(rt; is_text(alloc, Sample::Text)?);
    assert!(rt; !is_text(alloc, Sample::Set)?);
    assert_eq!(rt;
        [plain(bit_number(false)), plain(bit_number(true))],
        [Some(0), Some(1)]
    );
    Ok(())
}

fn integer_form(alloc: Global, which: Sample) -> Result<Form, AllocError> {
    Ok(form_of(&integer_of(alloc, operand(alloc, which)?)?))
}

fn condition_form(alloc: Global, which: Sample) -> Result<Form, AllocError> {
    Ok(form_of(&condition_of(alloc, operand(alloc, which)?)?))
}

#[test]
fn trees(rt: HostRuntime) -> Result<(), Fail> {
    let alloc = rt.alloc();
    assert_eq!(rt; integer_form(alloc, Sample::Five)?, Form::Number(5));
    assert_eq!(rt; integer_form(alloc, Sample::Yes)?, Form::Number(1));
    assert_eq!(rt; integer_form(alloc, Sample::Integer)?, Form::Variable(0));
    assert_eq!(rt; integer_form(alloc, Sample::Condition)?, Form::Bit);
    assert_eq!(rt; integer_form(alloc, Sample::Text)?, Form::Undefined);
    assert_eq!(rt; condition_form(alloc, Sample::Yes)?, Form::Truth(true));
    assert_eq!(rt;
        condition_form(alloc, Sample::Condition)?,
        Form::BitVariable(2)
    );
    assert_eq!(rt; condition_form(alloc, Sample::Set)?, Form::Truth(false));
    Ok(())
}

fn limits(alloc: Global, which: Sample) -> Result<(u64, usize), AllocError> {
    let x = operand(alloc, which)?;
    Ok((nesting_of(&x), elements_of(&x)))
}

#[test]
fn counts(rt: HostRuntime) -> Result<(), Fail> {
    let alloc = rt.alloc();
    assert_eq!(rt; limits(alloc, Sample::Five)?, (0, 0));
    assert_eq!(rt; limits(alloc, Sample::Set)?, (0, 2));
    assert_eq!(rt; limits(alloc, Sample::Integer)?, (1, 0));
    assert_eq!(rt; limits(alloc, Sample::Numbers)?, (0, 2));
    Ok(())
}

// What the tests tell operands by.
#[derive(Clone, Copy, Debug, PartialEq, Eq)]
enum Seen {
    Nothing,
    Number(Option<i64>),
    Truth(bool),
    Text,
    Integer(Form),
    Condition(Form),
    Other,
}

fn told(x: Operand) -> Seen {
    match &x {
        Operand::Number(n) => Seen::Number(plain(*n)),
        Operand::Truth(b) => Seen::Truth(*b),
        Operand::Text(_) => Seen::Text,
        Operand::Integer(tree) => Seen::Integer(form_of(tree)),
        Operand::Condition(tree) => Seen::Condition(form_of(tree)),
        _ => Seen::Other,
    }
}

fn told_of(x: Option<Operand>) -> Seen {
    match x {
        Some(x) => told(x),
        None => Seen::Nothing,
    }
}

#[test]
fn made_operands(rt: HostRuntime) -> Result<(), Fail> {
    let alloc = rt.alloc();
    assert_eq!(rt; told_of(known_number(Some(7))), Seen::Number(Some(7)));
    assert_eq!(rt; told_of(known_number(None)), Seen::Number(None));
    assert_eq!(rt;
        told_of(known_number(Some(1125899906842625))),
        Seen::Nothing
    );
    assert_eq!(rt; told_of(integer(None)), Seen::Nothing);
    assert_eq!(rt;
        told_of(integer(Some(truth_leaf(alloc, true)?))),
        Seen::Integer(Form::Truth(true))
    );
    assert_eq!(rt; told(no_number(alloc, false)?), Seen::Number(None));
    assert_eq!(rt;
        told(no_number(alloc, true)?),
        Seen::Integer(Form::Undefined)
    );
    assert_eq!(rt; told(no_truth(alloc, false)?), Seen::Truth(false));
    assert_eq!(rt;
        told(no_truth(alloc, true)?),
        Seen::Condition(Form::Truth(false))
    );
    assert_eq!(rt; told(undefined_of(alloc, Kind::Text)?), Seen::Text);
    assert_eq!(rt;
        told(undefined_of(alloc, Kind::Integer)?),
        Seen::Integer(Form::Undefined)
    );
    Ok(())
}
