//! Typed trees as text, in brackets.

use ms_code::{Code, Declaration, Function, Goal, Item, Link, Reference};
use ms_syntax::Operator;
use ms_typing::{ExprType, Scalar, Shape};
use std::alloc::AllocError;

fn operator(one: Operator) -> &'static str {
    match one {
        Operator::And => " /\\ ",
        Operator::Greater => " > ",
        Operator::Less => " < ",
        Operator::To => " .. ",
        Operator::Plus => " + ",
        Operator::Concat => " ++ ",
        _ => " ? ",
    }
}

fn scalar(one: Scalar) -> &'static str {
    match one {
        Scalar::Truth => "bool",
        Scalar::Number => "int",
        Scalar::Empty => "nothing",
    }
}

fn shape(one: Shape) -> &'static str {
    match one {
        Shape::Single => "",
        Shape::Line => "line of ",
        Shape::Grid => "grid of ",
    }
}

/// A type, as `line of var int`.
fn kind(text: &mut String, one: ExprType) -> Result<(), AllocError> {
    match one {
        ExprType::Plain(b, s, known) => {
            text.push_str(shape(s))?;
            if !known {
                text.push_str("var ")?;
            }
            text.push_str(scalar(b))
        }
        ExprType::Text(s) => {
            text.push_str(shape(s))?;
            text.push_str("string")
        }
        ExprType::Set => text.push_str("set"),
        ExprType::Search => text.push_str("search"),
    }
}

/// Locals as `local0`, names of the model as `m0`, of the library as `l0`.
fn reference(text: &mut String, one: Reference) -> Result<(), AllocError> {
    match one {
        Reference::Local(n) => write!(text, "local{n}"),
        Reference::Model(n) => write!(text, "m{n}"),
        Reference::Library(n) => write!(text, "l{n}"),
        Reference::BuiltIn(_) => text.push_str("built"),
    }
}

/// A conversion as `[var int 1]`, a chain in round brackets, a call with its arguments.
#[cycle(show)]
pub fn code(text: &mut String, one: &Code) -> Result<(), AllocError> {
    match one {
        Code::Number(_, n) => write!(text, "{n}"),
        Code::Truth(_, b) => text.push_str(if *b { "true" } else { "false" }),
        Code::Text(_, _) => text.push_str("text"),
        Code::Name(_, name) => reference(text, *name),
        Code::Chain(first, links) => {
            text.push_str("(")?;
            code(text, first.get())?;
            chain(text, links.as_slice())?;
            text.push_str(")")
        }
        Code::Call(_, name, arguments) => {
            reference(text, *name)?;
            list(text, arguments.as_slice())
        }
        Code::Array(_, t, elements) => {
            kind(text, *t)?;
            list(text, elements.as_slice())
        }
        Code::Convert(t, e) => {
            text.push_str("[")?;
            kind(text, *t)?;
            text.push_str(" ")?;
            code(text, e.get())?;
            text.push_str("]")
        }
        _ => text.push_str("?"),
    }
}

#[cycle(show)]
fn chain(text: &mut String, links: &[Link]) -> Result<(), AllocError> {
    for link in links {
        text.push_str(operator(link.operator))?;
        code(text, &link.operand)?;
    }
    Ok(())
}

#[cycle(show)]
fn list(text: &mut String, codes: &[Code]) -> Result<(), AllocError> {
    for one in codes {
        text.push_str(" ")?;
        code(text, one)?;
    }
    Ok(())
}

fn maybe(text: &mut String, before: &str, one: &Option<Code>) -> Result<(), AllocError> {
    text.push_str(before)?;
    match one {
        Some(e) => code(text, e),
        None => text.push_str("none"),
    }
}

fn declaration(text: &mut String, one: &Declaration) -> Result<(), AllocError> {
    kind(text, one.kind)?;
    for set in one.indices.as_slice() {
        maybe(text, "; over ", set)?;
    }
    maybe(text, "; in ", &one.within)?;
    maybe(text, "; is ", &one.value)
}

fn function(text: &mut String, one: &Function) -> Result<(), AllocError> {
    kind(text, one.result)?;
    for parameter in one.parameters.as_slice() {
        text.push_str("; of ")?;
        kind(text, *parameter)?;
    }
    text.push_str("; is ")?;
    code(text, &one.body)?;
    maybe(text, "; known ", &one.known_body)
}

fn goal(text: &mut String, one: &Goal) -> Result<(), AllocError> {
    match one {
        Goal::Satisfy => text.push_str("satisfy"),
        Goal::Minimize(e) => {
            text.push_str("minimize ")?;
            code(text, e)
        }
        Goal::Maximize(e) => {
            text.push_str("maximize ")?;
            code(text, e)
        }
        Goal::Search(e) => {
            text.push_str("search ")?;
            code(text, e)
        }
    }
}

fn assigned(text: &mut String, number: Option<usize>) -> Result<(), AllocError> {
    match number {
        Some(n) => write!(text, "assign m{n} "),
        None => text.push_str("assign none "),
    }
}

pub fn item(text: &mut String, one: &Item) -> Result<(), AllocError> {
    match one {
        Item::Include => text.push_str("include"),
        Item::Declare(d) => declaration(text, d),
        Item::Enum => text.push_str("enum"),
        Item::Assign(_, number, e) => {
            assigned(text, *number)?;
            code(text, e)
        }
        Item::Constraint(_, e) => {
            text.push_str("constraint ")?;
            code(text, e)
        }
        Item::Solve(_, one) => goal(text, one),
        Item::Output(_, e) => {
            text.push_str("output ")?;
            code(text, e)
        }
        Item::Function(f) => function(text, f),
    }
}
