use ms_built_ins::BuiltIn;
use ms_rows::{Form, Meaning, Told, TypeFault, row, settle};
use ms_syntax::{Operator, Place, Sign};
use ms_typing::{ExprType, Scalar, Shape};
use std::test::Fail;

const TRUTH: ExprType = ExprType::Plain(Scalar::Truth, Shape::Single, true);

const VAR_TRUTH: ExprType = ExprType::Plain(Scalar::Truth, Shape::Single, false);

const INT: ExprType = ExprType::Plain(Scalar::Number, Shape::Single, true);

const VAR_INT: ExprType = ExprType::Plain(Scalar::Number, Shape::Single, false);

const INTS: ExprType = ExprType::Plain(Scalar::Number, Shape::Line, true);

const VAR_INTS: ExprType = ExprType::Plain(Scalar::Number, Shape::Line, false);

const VAR_TRUTHS: ExprType = ExprType::Plain(Scalar::Truth, Shape::Line, false);

const NOTHING: ExprType = ExprType::Plain(Scalar::Empty, Shape::Line, true);

const TEXT: ExprType = ExprType::Text(Shape::Single);

const SET: ExprType = ExprType::Set;

const SEARCH: ExprType = ExprType::Search;

fn operation(operator: Operator, left: ExprType, right: ExprType) -> Option<ExprType> {
    row(&Form::Operation(operator), &[left, right])
}

fn called(name: BuiltIn, types: &[ExprType]) -> Option<ExprType> {
    row(&Form::Calls(Told::Means(Meaning::BuiltIn(name))), types)
}

#[test]
fn operators_have_the_types_of_the_table(rt: HostRuntime) -> Result<(), Fail> {
    assert!(rt; operation(Operator::Plus, INT, INT) == Some(INT));
    assert!(rt; operation(Operator::Plus, INT, VAR_TRUTH) == Some(VAR_INT));
    assert!(rt; operation(Operator::Less, INT, VAR_INT) == Some(VAR_TRUTH));
    assert!(rt; operation(Operator::Equal, TEXT, TEXT) == Some(TRUTH));
    assert!(rt; operation(Operator::Equal, TEXT, INT).is_none());
    assert!(rt; operation(Operator::And, SEARCH, TRUTH) == Some(SEARCH));
    assert!(rt; operation(Operator::And, SEARCH, VAR_TRUTH).is_none());
    assert!(rt; operation(Operator::In, VAR_INT, SET) == Some(VAR_TRUTH));
    assert!(rt; operation(Operator::To, INT, VAR_INT).is_none());
    assert!(rt; operation(Operator::Concat, NOTHING, VAR_INTS) == Some(VAR_INTS));
    assert!(rt; row(&Form::Prefix(Sign::Not), &[VAR_INT]).is_none());
    assert!(rt; row(&Form::Access, &[VAR_INTS, INT]) == Some(VAR_INT));
    assert!(rt; row(&Form::Access, &[INTS, VAR_INT]) == Some(VAR_INT));
    Ok(())
}

#[test]
fn calls_have_the_types_of_the_table(rt: HostRuntime) -> Result<(), Fail> {
    assert!(rt; called(BuiltIn::Sum, &[VAR_TRUTHS]) == Some(VAR_INT));
    assert!(rt; called(BuiltIn::Max, &[INT, VAR_INT]) == Some(VAR_INT));
    assert!(rt; called(BuiltIn::Length, &[VAR_INTS]) == Some(INT));
    assert!(rt; called(BuiltIn::Show, &[VAR_INTS]).is_none());
    assert!(rt; called(BuiltIn::Sol, &[VAR_INT]) == Some(INT));
    assert!(rt; called(BuiltIn::Print, &[TEXT]) == Some(SEARCH));
    assert!(rt; called(BuiltIn::Print, &[]) == Some(SEARCH));
    let params = [INT, SEARCH];
    let search = Meaning::Function(&params, false, SEARCH);
    assert!(rt; row(&Form::Calls(Told::Means(search)), &[TRUTH, TRUTH]) == Some(SEARCH));
    assert!(rt; row(&Form::Calls(Told::Barred(search)), &[TRUTH, TRUTH]).is_none());
    let sum = Told::Means(Meaning::BuiltIn(BuiltIn::Sum));
    assert!(rt;
        row(
            &Form::Generates(sum, &[SET, TRUTH], false),
            &[SET, TRUTH, VAR_TRUTH]
        ) == Some(VAR_INT)
    );
    let repeat = Told::Means(Meaning::BuiltIn(BuiltIn::Repeat));
    assert!(rt; row(&Form::Generates(repeat, &[SET], true), &[SET, TRUTH]) == Some(SEARCH));
    assert!(rt; row(&Form::Generates(repeat, &[SET], false), &[SET, TRUTH]).is_none());
    Ok(())
}

#[test]
fn brackets_and_conditions_have_the_types_of_the_table(rt: HostRuntime) -> Result<(), Fail> {
    assert!(rt; row(&Form::Array, &[]) == Some(NOTHING));
    assert!(rt; row(&Form::Array, &[TRUTH, VAR_INT]) == Some(VAR_INTS));
    assert!(rt; row(&Form::Set, &[INT, VAR_INT]).is_none());
    assert!(rt; row(&Form::Comprehension(&[SET]), &[INT, SET]) == Some(INTS));
    assert!(rt; row(&Form::Choice, &[TRUTH, TEXT, TEXT]) == Some(TEXT));
    assert!(rt; row(&Form::Choice, &[VAR_TRUTH, TEXT, TEXT]).is_none());
    assert!(rt; row(&Form::Choice, &[TRUTH, INT, VAR_TRUTH, TRUTH, INT]) == Some(VAR_INT));
    assert!(rt; row(&Form::Choice, &[SEARCH, SEARCH, TRUTH]) == Some(SEARCH));
    assert!(rt; row(&Form::Choice, &[]).is_none());
    assert!(rt; row(&Form::Lets(&[INT, VAR_INT]), &[TRUTH, INT, TEXT]) == Some(TEXT));
    assert!(rt; row(&Form::Lets(&[INT, VAR_INT]), &[VAR_INT, INT, TEXT]).is_none());
    Ok(())
}

#[test]
fn the_first_cause_is_named(rt: HostRuntime) -> Result<(), Fail> {
    let place = Place {
        file: 0,
        line: 3,
        col: 4,
    };
    let alloc = rt.alloc();
    let unknown = Form::Calls(Told::Unknown);
    assert!(rt;
        matches!(
            settle(alloc, place, &unknown, &[]),
            Err(TypeFault::Unknown(_))
        )
    );
    let length = Form::Calls(Told::Means(Meaning::BuiltIn(BuiltIn::Length)));
    assert!(rt;
        matches!(
            settle(alloc, place, &length, &[INTS, INTS]),
            Err(TypeFault::Arity(_))
        )
    );
    assert!(rt;
        matches!(
            settle(alloc, place, &length, &[INT]),
            Err(TypeFault::Mismatch(_))
        )
    );
    let range = Form::Operation(Operator::To);
    assert!(rt;
        matches!(
            settle(alloc, place, &range, &[INT, VAR_INT]),
            Err(TypeFault::NotKnown(_))
        )
    );
    assert!(rt;
        matches!(
            settle(alloc, place, &range, &[INT, TEXT]),
            Err(TypeFault::Mismatch(_))
        )
    );
    let kept = settle(alloc, place, &Form::Declares(false, &[], INT), &[]);
    assert!(rt; matches!(kept, Err(TypeFault::Unsupported(_))));
    assert!(rt;
        matches!(
            settle(alloc, place, &range, &[INT, TRUTH]),
            Ok(ExprType::Set)
        )
    );
    Ok(())
}
