//! Elements of arrays, and operands brought to a type.

use crate::samples::{Form, Sample, cells, form_of, operand, plain};
use ms_rules::{
    bits, cells_of, conditions_of, conversion_nesting, convert, converted, count_of, integers_of,
    is_logical_kind, is_variable_kind, kind_by, kind_of, kind_of_type, numbers_of, texts_of,
    truths_of,
};
use ms_typing::{ExprType, Scalar, Shape};
use ms_values::{Array, Cells, Kind, Narrow, Operand, Placed, Shared};
use std::alloc::{AllocError, Global};
use std::test::Fail;

fn kind_and_count(alloc: Global, which: Sample) -> Result<(Kind, usize), AllocError> {
    let cells = cells(alloc, which)?;
    Ok((kind_of(&cells), count_of(&cells)))
}

#[test]
fn kinds_of_elements(rt: HostRuntime) -> Result<(), Fail> {
    let alloc = rt.alloc();
    assert!(rt; kind_and_count(alloc, Sample::Numbers)? == (Kind::Number, 2));
    assert!(rt; kind_and_count(alloc, Sample::Truths)? == (Kind::Truth, 2));
    assert!(rt; kind_and_count(alloc, Sample::Conditions)? == (Kind::Condition, 1));
    assert!(rt; is_variable_kind(Kind::Integer) && !is_variable_kind(Kind::Truth));
    assert!(rt; is_logical_kind(Kind::Truth) && !is_logical_kind(Kind::Integer));
    assert!(rt; kind_by(Scalar::Truth, false) == Kind::Condition);
    assert!(rt; kind_of_type(ExprType::Plain(Scalar::Number, Shape::Line, true)) == Kind::Number);
    assert!(rt; kind_of_type(ExprType::Text(Shape::Line)) == Kind::Text);
    Ok(())
}

fn first_number(numbers: &[Option<Narrow>]) -> Option<i64> {
    match numbers.first() {
        Some(number) => plain(*number),
        None => None,
    }
}

fn first_form(trees: &[Placed]) -> Form {
    match trees.first() {
        Some(tree) => form_of(tree),
        None => Form::Other,
    }
}

fn number_read(alloc: Global, which: Sample) -> Result<Option<i64>, AllocError> {
    let numbers = numbers_of(alloc, cells(alloc, which)?)?;
    Ok(first_number(numbers.as_slice()))
}

fn integer_read(alloc: Global, which: Sample) -> Result<Form, AllocError> {
    let trees = integers_of(alloc, cells(alloc, which)?)?;
    Ok(first_form(trees.as_slice()))
}

fn condition_read(alloc: Global, which: Sample) -> Result<Form, AllocError> {
    let trees = conditions_of(alloc, cells(alloc, which)?)?;
    Ok(first_form(trees.as_slice()))
}

fn bit_read(alloc: Global, which: Sample) -> Result<Form, AllocError> {
    let trees = bits(alloc, conditions_of(alloc, cells(alloc, which)?)?)?;
    Ok(first_form(trees.as_slice()))
}

fn text_count(alloc: Global, which: Sample) -> Result<usize, AllocError> {
    Ok(texts_of(alloc, cells(alloc, which)?)?.len())
}

fn are_truths(alloc: Global, which: Sample) -> Result<bool, AllocError> {
    let truths = truths_of(alloc, cells(alloc, which)?)?;
    Ok(truths.as_slice() == [true, false].as_slice())
}

#[test]
fn elements_as_others(rt: HostRuntime) -> Result<(), Fail> {
    let alloc = rt.alloc();
    assert_eq!(rt; number_read(alloc, Sample::Numbers)?, Some(5));
    assert_eq!(rt; number_read(alloc, Sample::Truths)?, Some(1));
    assert_eq!(rt; integer_read(alloc, Sample::Numbers)?, Form::Number(5));
    assert_eq!(rt; integer_read(alloc, Sample::Truths)?, Form::Number(1));
    assert_eq!(rt; integer_read(alloc, Sample::Conditions)?, Form::Bit);
    assert_eq!(rt; condition_read(alloc, Sample::Truths)?, Form::Truth(true));
    assert_eq!(rt;
        condition_read(alloc, Sample::Conditions)?,
        Form::BitVariable(2)
    );
    assert_eq!(rt; bit_read(alloc, Sample::Conditions)?, Form::Bit);
    assert_eq!(rt; text_count(alloc, Sample::Numbers)?, 2);
    assert!(rt; are_truths(alloc, Sample::Truths)?);
    assert!(rt; !are_truths(alloc, Sample::Numbers)?);
    Ok(())
}

fn array(alloc: Global, which: Sample) -> Result<Option<Shared<Array>>, AllocError> {
    match operand(alloc, which)? {
        Operand::Array(array) => Ok(Some(array)),
        _ => Ok(None),
    }
}

fn count_taken(alloc: Global, which: Sample) -> Result<usize, AllocError> {
    match array(alloc, which)? {
        Some(array) => Ok(count_of(&cells_of(alloc, array)?)),
        None => Ok(0),
    }
}

fn kind_converted(alloc: Global, kind: Kind, which: Sample) -> Result<Option<Kind>, AllocError> {
    match array(alloc, which)? {
        Some(array) => Ok(Some(kind_of(&converted(alloc, kind, array)?))),
        None => Ok(None),
    }
}

fn first_tree(cells: &Cells) -> Form {
    match cells {
        Cells::Integers(trees) => first_form(trees.as_slice()),
        Cells::Conditions(trees) => first_form(trees.as_slice()),
        _ => Form::Other,
    }
}

fn tree_in(x: Operand) -> Form {
    match &x {
        Operand::Integer(tree) => form_of(tree),
        Operand::Condition(tree) => form_of(tree),
        Operand::Array(array) => first_tree(&array.get().cells),
        _ => Form::Other,
    }
}

const INTEGER: ExprType = ExprType::Plain(Scalar::Number, Shape::Single, false);

const INTEGERS: ExprType = ExprType::Plain(Scalar::Number, Shape::Line, false);

fn brought(alloc: Global, kind: ExprType, which: Sample) -> Result<Form, AllocError> {
    Ok(tree_in(convert(alloc, kind, operand(alloc, which)?)?))
}

fn nesting_brought(alloc: Global, kind: ExprType, which: Sample) -> Result<u64, AllocError> {
    let x = operand(alloc, which)?;
    Ok(conversion_nesting(kind, &x))
}

#[test]
fn brought_to_types(rt: HostRuntime) -> Result<(), Fail> {
    let alloc = rt.alloc();
    assert_eq!(rt; count_taken(alloc, Sample::Numbers)?, 2);
    assert!(rt; kind_converted(alloc, Kind::Integer, Sample::Numbers)? == Some(Kind::Integer));
    assert!(rt; kind_converted(alloc, Kind::Number, Sample::Truths)? == Some(Kind::Number));
    assert_eq!(rt; brought(alloc, INTEGER, Sample::Five)?, Form::Number(5));
    assert_eq!(rt; brought(alloc, INTEGER, Sample::Condition)?, Form::Bit);
    assert_eq!(rt; brought(alloc, INTEGERS, Sample::Conditions)?, Form::Bit);
    assert_eq!(rt; nesting_brought(alloc, INTEGERS, Sample::Conditions)?, 2);
    assert_eq!(rt; nesting_brought(alloc, INTEGER, Sample::Five)?, 0);
    Ok(())
}
