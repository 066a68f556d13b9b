use ms_code::Reference;
use ms_names::{
    Found, Scope, World, declared_parts, is_data, kind_sets, may_stand, seen, stands_local,
    stands_outside, stands_parameter, stands_result, tell, type_of_kind,
};
use ms_parser::model;
use ms_rows::{Meaning, Told};
use ms_syntax::{Expr, Item, Kind, Place, Tree, Word};
use ms_typing::{BuiltIn, ExprType, Scalar, Shape, Surroundings};
use std::alloc::Global;
use std::process::Abort;
use std::test::Fail;

const MODEL: &str = "
int: n = 3;
array[1..n] of var 0..9: x;
set of int: s = 1..n;
var bool: b;
int: n = 4;
predicate far(var int: u, var int: v) = let { int: n = 2; bool: u = true } in v > n;
function ann: walk(int: k) = next() /\\ commit();
constraint forall(i, j in 1..n, k in s where i < j)(x[i] < x[j]);
constraint sum(x) > n;
";

const LIBRARY: &str = "
function int: twice(int: a) = a + n;
function int: n(int: a) = a;
function int: far(int: a) = a;
";

const LIBRARY_PLACE: Place = Place {
    file: 2,
    line: 1,
    col: 1,
};

const MODEL_PLACE: Place = Place {
    file: 0,
    line: 1,
    col: 1,
};

const INT: ExprType = ExprType::Plain(Scalar::Number, Shape::Single, true);

const VAR_INT: ExprType = ExprType::Plain(Scalar::Number, Shape::Single, false);

const TRUTH: ExprType = ExprType::Plain(Scalar::Truth, Shape::Single, true);

const VAR_TRUTH: ExprType = ExprType::Plain(Scalar::Truth, Shape::Single, false);

const VAR_INTS: ExprType = ExprType::Plain(Scalar::Number, Shape::Line, false);

/// Names, as the model's text sees them: `n` is declared twice, and `far` by the library too.
const IN_MODEL: [(&str, Option<Reference>, Option<ExprType>); 10] = [
    ("n", Some(Reference::Model(0)), Some(INT)),
    ("x", Some(Reference::Model(1)), Some(VAR_INTS)),
    ("s", Some(Reference::Model(2)), Some(ExprType::Set)),
    ("b", Some(Reference::Model(3)), Some(VAR_TRUTH)),
    ("far", Some(Reference::Model(5)), None),
    ("walk", Some(Reference::Model(6)), None),
    ("twice", Some(Reference::Library(0)), None),
    ("sum", Some(Reference::BuiltIn(BuiltIn::Sum)), None),
    ("u", None, None),
    ("y", None, None),
];

/// And as the library's text sees them.
const IN_LIBRARY: [(&str, Option<Reference>, Option<ExprType>); 4] = [
    ("n", Some(Reference::Library(1)), None),
    ("far", Some(Reference::Library(2)), None),
    ("sum", Some(Reference::BuiltIn(BuiltIn::Sum)), None),
    ("x", None, None),
];

fn read(rt: &impl Abort, alloc: Global, file: u8, text: &str) -> Result<Tree, Fail> {
    let bytes = text.as_bytes();
    assert!(rt; bytes.len() <= 1048576);
    let tokens = ms_lexer::tokens(alloc, file, bytes)?;
    Ok(model(alloc, tokens.as_slice())?)
}

fn word(alloc: Global, name: &str) -> Result<Word, Fail> {
    Ok(Word::from_slice(alloc, name.as_bytes())?)
}

/// A name's reference, and its type if it stands for a value.
fn look(
    alloc: Global,
    world: &World,
    place: Place,
    scope: &Scope<'_>,
    name: &str,
) -> Result<(Option<Reference>, Option<ExprType>), Fail> {
    let name = word(alloc, name)?;
    match world.find(place, scope, &name)? {
        None => Ok((None, None)),
        Some(found) => Ok((Some(found.reference), value(found))),
    }
}

fn value(found: Found<'_>) -> Option<ExprType> {
    match found.meaning {
        Meaning::Value(t) => Some(t),
        _ => None,
    }
}

/// Names of the model, from its own text.
fn from_the_model(rt: &impl Abort, alloc: Global, world: &World) -> Result<(), Fail> {
    let outer = Scope::Outer;
    for (name, reference, t) in IN_MODEL.iter() {
        let found = look(alloc, world, MODEL_PLACE, &outer, name)?;
        assert!(rt; found == (*reference, *t));
    }
    Ok(())
}

/// Names from the library's text.
fn from_the_library(rt: &impl Abort, alloc: Global, world: &World) -> Result<(), Fail> {
    let outer = Scope::Outer;
    for (name, reference, t) in IN_LIBRARY.iter() {
        let found = look(alloc, world, LIBRARY_PLACE, &outer, name)?;
        assert!(rt; found == (*reference, *t));
    }
    let name = word(alloc, "n")?;
    assert!(rt; world.assigned(MODEL_PLACE, &name) == Some((0, INT)));
    assert!(rt; world.assigned(LIBRARY_PLACE, &name).is_none());
    Ok(())
}

/// The names inside the first predicate.
fn inside_predicate(
    rt: &impl Abort,
    alloc: Global,
    world: &World,
    item: &Item,
) -> Result<(), Fail> {
    match item {
        Item::Predicate(_, _, parameters, Expr::Let(_, locals, _, _)) => {
            let outer = Scope::Outer;
            let around = Scope::Parameters(parameters.as_slice(), &outer);
            let v = look(alloc, world, MODEL_PLACE, &around, "v")?;
            assert!(rt; v == (Some(Reference::Local(0)), Some(VAR_INT)));
            let u = look(alloc, world, MODEL_PLACE, &around, "u")?;
            assert!(rt; u == (Some(Reference::Local(1)), Some(VAR_INT)));
            let inside = Scope::Locals(locals.as_slice(), &around);
            let hiding = look(alloc, world, MODEL_PLACE, &inside, "u")?;
            assert!(rt; hiding == (Some(Reference::Local(0)), Some(TRUTH)));
            let n = look(alloc, world, MODEL_PLACE, &inside, "n")?;
            assert!(rt; n == (Some(Reference::Local(1)), Some(INT)));
            let v = look(alloc, world, MODEL_PLACE, &inside, "v")?;
            assert!(rt; v == (Some(Reference::Local(2)), Some(VAR_INT)));
            let x = look(alloc, world, MODEL_PLACE, &inside, "x")?;
            assert!(rt; x == (Some(Reference::Model(1)), Some(VAR_INTS)));
        }
        _ => assert!(rt; false),
    }
    Ok(())
}

/// The names of the generators of a constraint.
fn inside_generators(
    rt: &impl Abort,
    alloc: Global,
    world: &World,
    item: &Item,
) -> Result<(), Fail> {
    match item {
        Item::Constraint(_, Expr::GeneratorCall(_, _, generators, _), _) => {
            let outer = Scope::Outer;
            let inside = Scope::Generators(generators.list.as_slice(), &outer);
            let k = look(alloc, world, MODEL_PLACE, &inside, "k")?;
            assert!(rt; k == (Some(Reference::Local(0)), Some(INT)));
            let j = look(alloc, world, MODEL_PLACE, &inside, "j")?;
            assert!(rt; j == (Some(Reference::Local(1)), Some(INT)));
            let i = look(alloc, world, MODEL_PLACE, &inside, "i")?;
            assert!(rt; i == (Some(Reference::Local(2)), Some(INT)));
            let n = look(alloc, world, MODEL_PLACE, &inside, "n")?;
            assert!(rt; n == (Some(Reference::Model(0)), Some(INT)));
        }
        _ => assert!(rt; false),
    }
    Ok(())
}

#[test]
fn names_are_found_where_they_stand(rt: HostRuntime) -> Result<(), Fail> {
    let alloc = rt.alloc();
    let model = read(&rt, alloc, 0, MODEL)?;
    let library = read(&rt, alloc, 2, LIBRARY)?;
    let world = World::new(alloc, model.items.as_slice(), library.items.as_slice())?;
    assert!(rt; model.items.len() == 9);
    from_the_model(&rt, alloc, &world)?;
    from_the_library(&rt, alloc, &world)?;
    inside_predicate(&rt, alloc, &world, &model.items[5])?;
    inside_generators(&rt, alloc, &world, &model.items[7])
}

/// Whether it is told, and not barred.
fn means(told: Told<'_>) -> bool {
    match told {
        Told::Means(_) => true,
        _ => false,
    }
}

fn told_type(told: Told<'_>) -> Option<ExprType> {
    match told {
        Told::Means(Meaning::Value(t)) => Some(t),
        _ => None,
    }
}

#[test]
fn names_stand_where_they_may(rt: HostRuntime) -> Result<(), Fail> {
    let next = Meaning::BuiltIn(BuiltIn::Next);
    let fix = Meaning::BuiltIn(BuiltIn::Fix);
    let grid = Meaning::BuiltIn(BuiltIn::ArrayGrid);
    let walk = Meaning::Function(&[INT], false, ExprType::Search);
    assert!(rt; is_data(Surroundings::Data));
    assert!(rt; !is_data(Surroundings::Called));
    assert!(rt; may_stand(Surroundings::Search, next));
    assert!(rt; !may_stand(Surroundings::Model, next));
    assert!(rt; may_stand(Surroundings::Output, fix));
    assert!(rt; !may_stand(Surroundings::Called, fix));
    assert!(rt; may_stand(Surroundings::Data, grid));
    assert!(rt; !may_stand(Surroundings::Data, Meaning::Value(INT)));
    assert!(rt; may_stand(Surroundings::Search, walk));
    assert!(rt; !may_stand(Surroundings::Output, walk));
    assert!(rt; seen(Surroundings::Output, VAR_INT) == INT);
    assert!(rt; seen(Surroundings::Search, VAR_INT) == VAR_INT);
    assert!(rt; told_type(tell(Surroundings::Called, Some(Meaning::Value(VAR_INT)))) == Some(INT));
    assert!(rt;
        told_type(tell(Surroundings::Model, Some(Meaning::Value(VAR_INT)))) == Some(VAR_INT)
    );
    assert!(rt; !means(tell(Surroundings::Model, Some(next))));
    assert!(rt; !means(tell(Surroundings::Model, None)));
    Ok(())
}

/// Kinds, with their types, how many sets they name, and whether they stand outside, in a parameter
/// and in a result.
const KINDS: [(&str, ExprType, usize, bool, bool, bool); 9] = [
    ("int", INT, 0, true, true, true),
    ("var bool", VAR_TRUTH, 0, true, true, true),
    ("1..3", INT, 1, true, false, false),
    ("set of int", ExprType::Set, 0, true, true, false),
    ("set of 1..3", ExprType::Set, 1, true, false, false),
    (
        "string",
        ExprType::Text(Shape::Single),
        0,
        true,
        true,
        false,
    ),
    ("ann", ExprType::Search, 0, false, false, true),
    ("array[1..3] of var int", VAR_INTS, 1, true, false, false),
    ("array[int] of var 1..3", VAR_INTS, 1, false, false, false),
];

fn kind_of<'a>(item: &'a Item) -> Option<&'a Kind> {
    match item {
        Item::Declare(declaration) => Some(&declaration.kind),
        _ => None,
    }
}

#[test]
fn a_value_is_a_part_of_its_declaration(rt: HostRuntime) -> Result<(), Fail> {
    let alloc = rt.alloc();
    let tree = read(&rt, alloc, 0, "1..3: a = 2;")?;
    assert!(rt; tree.items.len() == 1);
    match &tree.items[0] {
        Item::Declare(declaration) => {
            let parts = declared_parts(alloc, &declaration.kind, INT, &declaration.value)?;
            assert!(rt; parts.as_slice() == [ExprType::Set, INT].as_slice());
            assert!(rt; !stands_local(&declaration.kind, &declaration.value));
        }
        _ => assert!(rt; false),
    }
    Ok(())
}

#[test]
fn kinds_stand_where_they_may(rt: HostRuntime) -> Result<(), Fail> {
    let alloc = rt.alloc();
    for (text, t, sets, outside, parameter, result) in KINDS.iter() {
        let tree = read(&rt, alloc, 0, format!(in alloc; "{text}: a;")?.as_str())?;
        assert!(rt; tree.items.len() == 1);
        match kind_of(&tree.items[0]) {
            Some(kind) => {
                assert!(rt; type_of_kind(kind) == *t);
                assert!(rt; kind_sets(alloc, kind)?.len() == *sets);
                assert!(rt; declared_parts(alloc, kind, INT, &None)?.len() == *sets);
                assert!(rt; stands_outside(kind) == *outside);
                assert!(rt; stands_parameter(false, kind) == *parameter);
                assert!(rt; stands_result(kind) == *result);
                assert!(rt; !stands_local(kind, &None));
            }
            None => assert!(rt; false),
        }
    }
    Ok(())
}
