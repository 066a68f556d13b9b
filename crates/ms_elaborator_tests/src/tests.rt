use ms_elaborator::least_type;
use ms_names::{Scope, World};
use ms_parser::{model, statement};
use ms_rows::TypeFault;
use ms_syntax::{Expr, Place, Tree};
use ms_typing::{ExprType, Scalar, Shape, Surroundings};
use std::alloc::Global;
use std::process::Abort;
use std::test::Fail;

const MODEL: &str = "
int: n = 3;
array[1..n] of var 0..9: x;
array[1..2, 1..n] of int: g;
set of int: s = 1..n;
var bool: b;
bool: c;
predicate far(var int: u, var int: v) = u + v > n;
function ann: walk(int: k) = next() /\\ commit();
";

const LIBRARY: &str = "
function int: twice(int: a) = a + a;
";

const INT: ExprType = ExprType::Plain(Scalar::Number, Shape::Single, true);

const VAR_INT: ExprType = ExprType::Plain(Scalar::Number, Shape::Single, false);

const TRUTH: ExprType = ExprType::Plain(Scalar::Truth, Shape::Single, true);

const VAR_TRUTH: ExprType = ExprType::Plain(Scalar::Truth, Shape::Single, false);

const INTS: ExprType = ExprType::Plain(Scalar::Number, Shape::Line, true);

const VAR_INTS: ExprType = ExprType::Plain(Scalar::Number, Shape::Line, false);

const NOTHING: ExprType = ExprType::Plain(Scalar::Empty, Shape::Line, true);

const TABLE: ExprType = ExprType::Plain(Scalar::Number, Shape::Grid, true);

const TEXT: ExprType = ExprType::Text(Shape::Single);

/// Expressions in a constraint, with their least types.
const TYPED: [(&str, ExprType); 24] = [
    ("1 + n * 2", INT),
    ("x[1] + 1 - n", VAR_INT),
    ("g[1, 2] < n", TRUTH),
    ("-x[n]", VAR_INT),
    ("not b", VAR_TRUTH),
    ("n in s", TRUTH),
    ("1..n", ExprType::Set),
    ("\"a\" ++ \"b\" ++ \"c\"", TEXT),
    ("[1] ++ x ++ []", VAR_INTS),
    ("[]", NOTHING),
    ("[true, 2]", INTS),
    ("[| 1, 2 | 3, 4 |]", TABLE),
    ("{1, n}", ExprType::Set),
    ("[i + j | i, j in 1..n where i < j]", INTS),
    ("[x[i] | i in s]", VAR_INTS),
    ("sum(i in 1..n, j in 1..i)(x[j])", VAR_INT),
    ("forall(i in s where i > 1)(x[i] > n)", VAR_TRUTH),
    ("if c then x[1] else 1 endif", VAR_INT),
    ("if b then 1 elseif c then 2 else 3 endif", VAR_INT),
    ("let { int: k = n; var int: m = k + x[1] } in m", VAR_INT),
    ("far(1, x[2])", VAR_TRUTH),
    ("twice(n)", INT),
    ("length(x)", INT),
    ("b -> c <-> b /\\ c xor b", VAR_TRUTH),
];

/// Expressions in a constraint without a type: where the first fault is, and why.
const FAULTY: [(&str, u32, &str); 14] = [
    ("y", 1, "unknown"),
    ("1 + far(1)", 5, "arity"),
    ("x[1, 2]", 1, "arity"),
    ("1..x[1]", 2, "not known"),
    ("1 + \"a\"", 3, "mismatch"),
    ("(1 + \"a\") + y", 4, "mismatch"),
    ("y + z", 1, "unknown"),
    ("1 + \"a\" + y", 3, "mismatch"),
    ("\"a\" ++ 1 ++ y", 13, "unknown"),
    ("[i | i in 1..i]", 14, "unknown"),
    ("[y | i in z]", 2, "unknown"),
    ("if b then \"a\" else \"b\" endif", 1, "not known"),
    ("let { set of 1..n: k = s } in 1", 7, "unsupported"),
    ("next()", 1, "mismatch"),
];

fn read(rt: &impl Abort, alloc: Global, file: u8, text: &str) -> Result<Tree, Fail> {
    let bytes = text.as_bytes();
    assert!(rt; bytes.len() <= 1048576);
    let tokens = ms_lexer::tokens(alloc, file, bytes)?;
    Ok(model(alloc, tokens.as_slice())?)
}

fn expression(rt: &impl Abort, alloc: Global, text: &str) -> Result<Expr, Fail> {
    let bytes = text.as_bytes();
    assert!(rt; bytes.len() <= 1048576);
    let tokens = ms_lexer::tokens(alloc, 0, bytes)?;
    Ok(statement(alloc, tokens.as_slice())?)
}

fn cause(fault: &TypeFault) -> (&'static str, Place) {
    match fault {
        TypeFault::Unknown(place) => ("unknown", *place),
        TypeFault::Arity(place) => ("arity", *place),
        TypeFault::NotKnown(place) => ("not known", *place),
        TypeFault::Unsupported(place) => ("unsupported", *place),
        TypeFault::Mismatch(place) => ("mismatch", *place),
        _ => (
            "another",
            Place {
                file: 0,
                line: 0,
                col: 0,
            },
        ),
    }
}

#[test]
fn expressions_have_their_least_types(rt: HostRuntime) -> Result<(), Fail> {
    let alloc = rt.alloc();
    let model = read(&rt, alloc, 0, MODEL)?;
    let library = read(&rt, alloc, 2, LIBRARY)?;
    let world = World::new(alloc, model.items.as_slice(), library.items.as_slice())?;
    for (text, wanted) in TYPED.iter() {
        let e = expression(&rt, alloc, text)?;
        let found = least_type(alloc, &world, Surroundings::Model, &Scope::Outer, &e);
        assert!(rt; matches!(found, Ok(t) if t == *wanted));
    }
    Ok(())
}

#[test]
fn the_first_fault_is_told_with_its_place(rt: HostRuntime) -> Result<(), Fail> {
    let alloc = rt.alloc();
    let model = read(&rt, alloc, 0, MODEL)?;
    let library = read(&rt, alloc, 2, LIBRARY)?;
    let world = World::new(alloc, model.items.as_slice(), library.items.as_slice())?;
    for (text, col, why) in FAULTY.iter() {
        let e = expression(&rt, alloc, text)?;
        match least_type(alloc, &world, Surroundings::Model, &Scope::Outer, &e) {
            Ok(_) => assert!(rt; false),
            Err(fault) => {
                let (told, place) = cause(&fault);
                assert_eq!(rt; told, *why);
                assert_eq!(rt; place.col, *col);
            }
        }
    }
    Ok(())
}

#[test]
fn surroundings_tell_what_may_stand(rt: HostRuntime) -> Result<(), Fail> {
    let alloc = rt.alloc();
    let model = read(&rt, alloc, 0, MODEL)?;
    let library = read(&rt, alloc, 2, LIBRARY)?;
    let world = World::new(alloc, model.items.as_slice(), library.items.as_slice())?;
    let outer = Scope::Outer;
    let e = expression(&rt, alloc, "walk(n) /\\ next() \\/ c")?;
    let search = least_type(alloc, &world, Surroundings::Search, &outer, &e);
    assert!(rt; matches!(search, Ok(ExprType::Search)));
    let e = expression(&rt, alloc, "x[1]")?;
    let output = least_type(alloc, &world, Surroundings::Output, &outer, &e);
    assert!(rt; matches!(output, Ok(t) if t == INT));
    let e = expression(&rt, alloc, "[1, 2]")?;
    let data = least_type(alloc, &world, Surroundings::Data, &outer, &e);
    assert!(rt; matches!(data, Ok(t) if t == INTS));
    let e = expression(&rt, alloc, "n")?;
    let name = least_type(alloc, &world, Surroundings::Data, &outer, &e);
    assert!(rt; matches!(name, Err(TypeFault::Mismatch(_))));
    Ok(())
}
