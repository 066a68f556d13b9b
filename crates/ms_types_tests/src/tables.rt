//! Tables held against the checker, row by row.

use crate::answers::{LIBRARY, MODEL, expression_answer, model_answer, read_expression};
use ms_names::Scope;
use ms_types::Typed;
use ms_typing::Surroundings;
use std::alloc::Global;
use std::process::Abort;
use std::test::Fail;

/// Holds an expression against the answer. One behind `library:` stands in the library's text.
fn hold_expression(
    rt: &impl Abort,
    alloc: Global,
    typed: &Typed,
    around: Surroundings,
    scope: &Scope<'_>,
    row: &str,
    wanted: &str,
) -> Result<(), Fail> {
    let (file, text) = match row.strip_prefix("library: ") {
        Some(text) => (LIBRARY, text),
        None => (MODEL, row),
    };
    let e = read_expression(rt, alloc, file, text)?;
    let found = expression_answer(alloc, typed, around, scope, &e)?;
    assert_eq!(rt; found.as_str(), wanted, "{row}");
    Ok(())
}

/// Holds the expressions of a table against their least types or first faults.
pub fn hold_expressions(
    rt: &impl Abort,
    alloc: Global,
    typed: &Typed,
    around: Surroundings,
    scope: &Scope<'_>,
    table: &str,
) -> Result<(), Fail> {
    for row in table.split('\n') {
        if let Some((text, wanted)) = row.split_once(" => ") {
            hold_expression(rt, alloc, typed, around, scope, text, wanted)?;
        } else {
            assert!(rt; row.is_empty() || row.starts_with('%'), "{row}");
        }
    }
    Ok(())
}

/// Holds a model against the answer.
pub fn hold_model(
    rt: &impl Abort,
    alloc: Global,
    model: &str,
    library: &str,
    row: &str,
    wanted: &str,
) -> Result<(), Fail> {
    let found = model_answer(rt, alloc, model, library)?;
    assert_eq!(rt; found.as_str(), wanted, "{row}");
    Ok(())
}

/// Holds the models of a table against what the checker says of them beside a library. Each is written between the same
/// two texts.
pub fn hold_models(
    rt: &impl Abort,
    alloc: Global,
    before: &str,
    table: &str,
    after: &str,
    library: &str,
) -> Result<(), Fail> {
    for row in table.split('\n') {
        if let Some((text, wanted)) = row.split_once(" => ") {
            let model = format!(in alloc; "{before}{text}{after}")?;
            hold_model(rt, alloc, model.as_str(), library, text, wanted)?;
        } else {
            assert!(rt; row.is_empty() || row.starts_with('%'), "{row}");
        }
    }
    Ok(())
}

/// The line that a word of a table of orders stands for.
fn line_of(rt: &impl Abort, word: &str) -> &'static str {
    match word {
        "include" => "include \"other.mzn\";\n",
        "twice" => "int: x = 1; int: x = 2;\n",
        "cycle" => "int: u = v; int: v = u;\n",
        "unknown" => "constraint y;\n",
        "solve" => "solve satisfy;\n",
        _ => {
            assert!(rt; false, "{word}");
            ""
        }
    }
}

fn lines_of(rt: &impl Abort, alloc: Global, words: &str) -> Result<String, Fail> {
    let mut text = String::new(alloc);
    for word in words.split_whitespace() {
        text.push_str(line_of(rt, word))?;
    }
    Ok(text)
}

/// Holds the texts of a table of orders against their first faults.
pub fn hold_orders(rt: &impl Abort, alloc: Global, table: &str) -> Result<(), Fail> {
    for row in table.split('\n') {
        if let Some((words, wanted)) = row.split_once(" => ") {
            let (library, model) = match words.split_once(" | ") {
                Some((library, model)) => (library, model),
                None => ("", words),
            };
            let model = lines_of(rt, alloc, model)?;
            let library = lines_of(rt, alloc, library)?;
            hold_model(rt, alloc, model.as_str(), library.as_str(), words, wanted)?;
        }
    }
    Ok(())
}
