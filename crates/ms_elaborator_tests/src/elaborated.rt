use crate::trees::{Seen, see};
use ms_built_ins::BuiltIn;
use ms_code::{Condition, Reference};
use ms_elaborator::elaborate;
use ms_names::{Scope, World};
use ms_parser::{model, statement};
use ms_syntax::{Expr, Operator, Sign, Tree};
use ms_typing::{ExprType, Scalar, Shape, Surroundings};
use std::alloc::Global;
use std::process::Abort;
use std::test::Fail;

/// The names of the model are counted from 0 in this order.
const MODEL: &str = "
int: n = 3;
array[1..n] of var 0..9: x;
array[1..2, 1..n] of int: g;
set of int: s = 1..n;
var bool: b;
bool: c;
predicate far(var int: u, var int: v) = u + v > n;
function int: total(array[int] of int: a) = sum(a);
function ann: walk(ann: f) = f /\\ next();
";

const LIBRARY: &str = "
function int: twice(int: a) = a + a;
";

const INT: ExprType = ExprType::Plain(Scalar::Number, Shape::Single, true);

const VAR_INT: ExprType = ExprType::Plain(Scalar::Number, Shape::Single, false);

const INTS: ExprType = ExprType::Plain(Scalar::Number, Shape::Line, true);

const VAR_INTS: ExprType = ExprType::Plain(Scalar::Number, Shape::Line, false);

const NOTHING: ExprType = ExprType::Plain(Scalar::Empty, Shape::Line, true);

const TABLE: ExprType = ExprType::Plain(Scalar::Number, Shape::Grid, true);

const N: Seen = Seen::Name(Reference::Model(0));

const X: Seen = Seen::Name(Reference::Model(1));

const G: Seen = Seen::Name(Reference::Model(2));

const S: Seen = Seen::Name(Reference::Model(3));

const B: Seen = Seen::Name(Reference::Model(4));

const C: Seen = Seen::Name(Reference::Model(5));

const LATEST: Seen = Seen::Name(Reference::Local(0));

const NEXT: Seen = Seen::Call(Reference::BuiltIn(BuiltIn::Next), 0);

const ONE: Seen = Seen::Number(1);

const TWO: Seen = Seen::Number(2);

/// Expressions in a constraint without a conversion, with their typed trees.
const PLAIN: [(&str, &[Seen]); 13] = [
    (
        "1 + n * 2",
        &[
            Seen::Chain(1),
            ONE,
            Seen::By(Operator::Plus, 3),
            Seen::Chain(1),
            N,
            Seen::By(Operator::Times, 7),
            TWO,
        ],
    ),
    (
        "n - 1 + 2",
        &[
            Seen::Chain(2),
            N,
            Seen::By(Operator::Minus, 3),
            ONE,
            Seen::By(Operator::Plus, 7),
            TWO,
        ],
    ),
    (
        "\"ab\" ++ \"c\"",
        &[
            Seen::Chain(1),
            Seen::Text(2),
            Seen::By(Operator::Concat, 6),
            Seen::Text(1),
        ],
    ),
    (
        "x[1] > b",
        &[
            Seen::Chain(1),
            Seen::Access(1),
            X,
            Seen::One,
            ONE,
            Seen::By(Operator::Greater, 6),
            B,
        ],
    ),
    (
        "-g[1, n]",
        &[
            Seen::Prefix(Sign::Minus),
            Seen::Access(1),
            G,
            Seen::Two,
            ONE,
            N,
        ],
    ),
    (
        "not (true)",
        &[
            Seen::Prefix(Sign::Not),
            Seen::Parenthesis,
            Seen::Truth(true),
        ],
    ),
    (
        "n in {1, n}",
        &[
            Seen::Chain(1),
            N,
            Seen::By(Operator::In, 3),
            Seen::Set(2),
            ONE,
            N,
        ],
    ),
    ("[]", &[Seen::Array(NOTHING, 0)]),
    (
        "[i * j | i, j in s where i < j]",
        &[
            Seen::Comprehension(INTS),
            Seen::Generators(1, true),
            Seen::Names(2),
            S,
            Seen::Chain(1),
            Seen::Name(Reference::Local(1)),
            Seen::By(Operator::Less, 28),
            LATEST,
            Seen::Chain(1),
            Seen::Name(Reference::Local(1)),
            Seen::By(Operator::Times, 4),
            LATEST,
        ],
    ),
    (
        "sum(i in s, j in 1..i)(x[j])",
        &[
            Seen::Call(Reference::BuiltIn(BuiltIn::Sum), 1),
            Seen::Gathered(VAR_INTS),
            Seen::Generators(2, false),
            Seen::Names(1),
            S,
            Seen::Names(1),
            Seen::Chain(1),
            ONE,
            Seen::By(Operator::To, 19),
            LATEST,
            Seen::Access(1),
            X,
            Seen::One,
            LATEST,
        ],
    ),
    (
        "length(x)",
        &[Seen::Call(Reference::BuiltIn(BuiltIn::Length), 1), X],
    ),
    ("twice(n)", &[Seen::Call(Reference::Library(0), 1), N]),
    (
        "if c then 1 elseif c then 2 else n endif",
        &[
            Seen::If(2),
            Seen::When(Condition::Known),
            C,
            ONE,
            Seen::When(Condition::Known),
            C,
            TWO,
            N,
        ],
    ),
];

/// Expressions in a constraint with conversions.
const CONVERTED: [(&str, &[Seen]); 9] = [
    (
        "[true, x[2]]",
        &[
            Seen::Array(VAR_INTS, 2),
            Seen::Convert(VAR_INT),
            Seen::Truth(true),
            Seen::Access(1),
            X,
            Seen::One,
            TWO,
        ],
    ),
    (
        "[| 1, true | n, 2 |]",
        &[
            Seen::Rows(TABLE, 2),
            Seen::Row(2),
            ONE,
            Seen::Convert(INT),
            Seen::Truth(true),
            Seen::Row(2),
            N,
            TWO,
        ],
    ),
    (
        "[1] ++ x ++ []",
        &[
            Seen::Chain(2),
            Seen::Convert(VAR_INTS),
            Seen::Array(INTS, 1),
            ONE,
            Seen::By(Operator::Concat, 5),
            X,
            Seen::By(Operator::Concat, 10),
            Seen::Convert(VAR_INTS),
            Seen::Array(NOTHING, 0),
        ],
    ),
    (
        "far(1, x[2])",
        &[
            Seen::Call(Reference::Model(6), 2),
            Seen::Convert(VAR_INT),
            ONE,
            Seen::Access(1),
            X,
            Seen::One,
            TWO,
        ],
    ),
    (
        "twice(c)",
        &[Seen::Call(Reference::Library(0), 1), Seen::Convert(INT), C],
    ),
    (
        "total(i in s)(c)",
        &[
            Seen::Call(Reference::Model(7), 1),
            Seen::Gathered(INTS),
            Seen::Generators(1, false),
            Seen::Names(1),
            S,
            Seen::Convert(INT),
            C,
        ],
    ),
    (
        "let { int: k = n; var int: m = c } in m + k",
        &[
            Seen::Let(2),
            N,
            Seen::Convert(VAR_INT),
            C,
            Seen::Chain(1),
            LATEST,
            Seen::By(Operator::Plus, 41),
            Seen::Name(Reference::Local(1)),
        ],
    ),
    (
        "if c then x[1] else 1 endif",
        &[
            Seen::If(1),
            Seen::When(Condition::Known),
            C,
            Seen::Access(1),
            X,
            Seen::One,
            ONE,
            Seen::Convert(VAR_INT),
            ONE,
        ],
    ),
    (
        "if b then 1 elseif c then 2 else 3 endif",
        &[
            Seen::If(2),
            Seen::When(Condition::Variable),
            B,
            Seen::Convert(VAR_INT),
            ONE,
            Seen::When(Condition::Known),
            C,
            Seen::Convert(VAR_INT),
            TWO,
            Seen::Convert(VAR_INT),
            Seen::Number(3),
        ],
    ),
];

/// Expressions in a search.
const SEARCHED: [(&str, &[Seen]); 7] = [
    (
        "next() /\\ c",
        &[
            Seen::Chain(1),
            NEXT,
            Seen::By(Operator::And, 8),
            Seen::Convert(ExprType::Search),
            C,
        ],
    ),
    (
        "c xor true \\/ next() \\/ c",
        &[
            Seen::Chain(2),
            Seen::Convert(ExprType::Search),
            Seen::Chain(1),
            C,
            Seen::By(Operator::Xor, 3),
            Seen::Truth(true),
            Seen::By(Operator::Or, 12),
            NEXT,
            Seen::By(Operator::Or, 22),
            Seen::Convert(ExprType::Search),
            C,
        ],
    ),
    (
        "c xor c",
        &[Seen::Chain(1), C, Seen::By(Operator::Xor, 3), C],
    ),
    (
        "scope(c)",
        &[
            Seen::Call(Reference::BuiltIn(BuiltIn::Scope), 1),
            Seen::Convert(ExprType::Search),
            C,
        ],
    ),
    (
        "repeat(i in s)(c)",
        &[
            Seen::RepeatEach,
            Seen::Generators(1, false),
            Seen::Names(1),
            S,
            Seen::Convert(ExprType::Search),
            C,
        ],
    ),
    (
        "walk(c)",
        &[
            Seen::Call(Reference::Model(8), 1),
            Seen::Convert(ExprType::Search),
            C,
        ],
    ),
    (
        "if next() then c elseif c then skip else fail endif",
        &[
            Seen::If(2),
            Seen::When(Condition::Search),
            NEXT,
            Seen::Convert(ExprType::Search),
            C,
            Seen::When(Condition::Known),
            C,
            Seen::Name(Reference::BuiltIn(BuiltIn::Skip)),
            Seen::Name(Reference::BuiltIn(BuiltIn::Fail)),
        ],
    ),
];

/// Expressions in an output item, where every value is known.
const SHOWN: [(&str, &[Seen]); 1] = [(
    "if b then 1 else x[1] endif",
    &[
        Seen::If(1),
        Seen::When(Condition::Known),
        B,
        ONE,
        Seen::Access(1),
        X,
        Seen::One,
        ONE,
    ],
)];

fn read(rt: &impl Abort, alloc: Global, file: u8, text: &str) -> Result<Tree, Fail> {
    let bytes = text.as_bytes();
    assert!(rt; bytes.len() <= 1048576);
    let tokens = ms_lexer::tokens(alloc, file, bytes)?;
    Ok(model(alloc, tokens.as_slice())?)
}

fn expression(rt: &impl Abort, alloc: Global, text: &str) -> Result<Expr, Fail> {
    let bytes = text.as_bytes();
    assert!(rt; bytes.len() <= 1048576);
    let tokens = ms_lexer::tokens(alloc, 0, bytes)?;
    Ok(statement(alloc, tokens.as_slice())?)
}

/// Whether the typed tree of an expression is this one.
fn stands(
    rt: &impl Abort,
    alloc: Global,
    world: &World,
    around: Surroundings,
    text: &str,
    wanted: &[Seen],
) -> Result<(), Fail> {
    let e = expression(rt, alloc, text)?;
    match elaborate(alloc, world, around, &Scope::Outer, &e) {
        Ok(elaborated) => {
            let mut list = Vec::new(alloc);
            see(&mut list, elaborated.code.get())?;
            assert!(rt; list.as_slice() == wanted);
        }
        Err(_) => assert!(rt; false),
    }
    Ok(())
}

#[test]
fn typed_trees_of_a_model(rt: HostRuntime) -> Result<(), Fail> {
    let alloc = rt.alloc();
    let model = read(&rt, alloc, 0, MODEL)?;
    let library = read(&rt, alloc, 2, LIBRARY)?;
    let world = World::new(alloc, model.items.as_slice(), library.items.as_slice())?;
    for (text, wanted) in PLAIN.iter() {
        stands(&rt, alloc, &world, Surroundings::Model, text, *wanted)?;
    }
    for (text, wanted) in CONVERTED.iter() {
        stands(&rt, alloc, &world, Surroundings::Model, text, *wanted)?;
    }
    Ok(())
}

#[test]
fn typed_trees_of_searches_and_output(rt: HostRuntime) -> Result<(), Fail> {
    let alloc = rt.alloc();
    let model = read(&rt, alloc, 0, MODEL)?;
    let library = read(&rt, alloc, 2, LIBRARY)?;
    let world = World::new(alloc, model.items.as_slice(), library.items.as_slice())?;
    for (text, wanted) in SEARCHED.iter() {
        stands(&rt, alloc, &world, Surroundings::Search, text, *wanted)?;
    }
    for (text, wanted) in SHOWN.iter() {
        stands(&rt, alloc, &world, Surroundings::Output, text, *wanted)?;
    }
    Ok(())
}
