//! The built-in names.

ghost use Rattle.std.specs.Prelude.{◌≡◌};
ghost use Rattle.ms_built_ins.specs.BuiltIns as spec;

/// What a built-in name stands for. Two names may stand for one.
#[derive(Clone, Copy, PartialEq, Eq)]
pub enum BuiltIn {
    ForAll,
    Exists,
    Sum,
    Min,
    Max,
    Abs,
    BoolToInt,
    Count,
    AllDifferent,
    Table,
    Length,
    IndexSet,
    RowIndexSet,
    ColumnIndexSet,
    Card,
    ArrayLine,
    ArrayGrid,
    Show,
    Fix,
    Sol,
    HasSol,
    Uniform,
    Next,
    Post,
    Commit,
    Print,
    Scope,
    Repeat,
    Break,
    Fail,
    Skip,
    TimeLimit,
    Keep,
    ClearFront,
    PrintFront,
}

fn of_arrays(name: &[u8]) -> Option<BuiltIn>
    ensures { result ≡ spec.among spec.of_arrays name.now }
{
    if name == b"forall".as_slice() {
        Some(BuiltIn::ForAll)
    } else if name == b"exists".as_slice() {
        Some(BuiltIn::Exists)
    } else if name == b"sum".as_slice() {
        Some(BuiltIn::Sum)
    } else if name == b"min".as_slice() {
        Some(BuiltIn::Min)
    } else if name == b"max".as_slice() {
        Some(BuiltIn::Max)
    } else if name == b"count".as_slice() {
        Some(BuiltIn::Count)
    } else if name == b"all_different".as_slice() {
        Some(BuiltIn::AllDifferent)
    } else if name == b"alldifferent".as_slice() {
        Some(BuiltIn::AllDifferent)
    } else if name == b"table".as_slice() {
        Some(BuiltIn::Table)
    } else {
        None
    }
}

fn of_indices(name: &[u8]) -> Option<BuiltIn>
    ensures { result ≡ spec.among spec.of_indices name.now }
{
    if name == b"length".as_slice() {
        Some(BuiltIn::Length)
    } else if name == b"index_set".as_slice() {
        Some(BuiltIn::IndexSet)
    } else if name == b"index_set_1of2".as_slice() {
        Some(BuiltIn::RowIndexSet)
    } else if name == b"index_set_2of2".as_slice() {
        Some(BuiltIn::ColumnIndexSet)
    } else if name == b"array1d".as_slice() {
        Some(BuiltIn::ArrayLine)
    } else if name == b"array2d".as_slice() {
        Some(BuiltIn::ArrayGrid)
    } else {
        None
    }
}

fn of_values(name: &[u8]) -> Option<BuiltIn>
    ensures { result ≡ spec.among spec.of_values name.now }
{
    if name == b"abs".as_slice() {
        Some(BuiltIn::Abs)
    } else if name == b"bool2int".as_slice() {
        Some(BuiltIn::BoolToInt)
    } else if name == b"card".as_slice() {
        Some(BuiltIn::Card)
    } else if name == b"show".as_slice() {
        Some(BuiltIn::Show)
    } else if name == b"fix".as_slice() {
        Some(BuiltIn::Fix)
    } else if name == b"sol".as_slice() {
        Some(BuiltIn::Sol)
    } else if name == b"hasSol".as_slice() {
        Some(BuiltIn::HasSol)
    } else if name == b"uniform".as_slice() {
        Some(BuiltIn::Uniform)
    } else {
        None
    }
}

fn of_steps(name: &[u8]) -> Option<BuiltIn>
    ensures { result ≡ spec.among spec.of_steps name.now }
{
    if name == b"next".as_slice() {
        Some(BuiltIn::Next)
    } else if name == b"post".as_slice() {
        Some(BuiltIn::Post)
    } else if name == b"commit".as_slice() {
        Some(BuiltIn::Commit)
    } else if name == b"print".as_slice() {
        Some(BuiltIn::Print)
    } else if name == b"keep".as_slice() {
        Some(BuiltIn::Keep)
    } else if name == b"clear_front".as_slice() {
        Some(BuiltIn::ClearFront)
    } else if name == b"print_front".as_slice() {
        Some(BuiltIn::PrintFront)
    } else {
        None
    }
}

fn of_control(name: &[u8]) -> Option<BuiltIn>
    ensures { result ≡ spec.among spec.of_control name.now }
{
    if name == b"scope".as_slice() {
        Some(BuiltIn::Scope)
    } else if name == b"repeat".as_slice() {
        Some(BuiltIn::Repeat)
    } else if name == b"break".as_slice() {
        Some(BuiltIn::Break)
    } else if name == b"fail".as_slice() {
        Some(BuiltIn::Fail)
    } else if name == b"skip".as_slice() {
        Some(BuiltIn::Skip)
    } else if name == b"time_limit".as_slice() {
        Some(BuiltIn::TimeLimit)
    } else {
        None
    }
}

/// What a built-in name stands for; `None` for every other name.
pub fn built_in(name: &[u8]) -> Option<BuiltIn>
    ensures { result ≡ spec.built_in name.now }
{
    if let Some(found) = of_arrays(name) {
        return Some(found);
    }
    if let Some(found) = of_indices(name) {
        return Some(found);
    }
    if let Some(found) = of_values(name) {
        return Some(found);
    }
    if let Some(found) = of_steps(name) {
        return Some(found);
    }
    of_control(name)
}
