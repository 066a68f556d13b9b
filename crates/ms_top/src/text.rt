//! What is written of solutions.

ghost use Rattle.std.specs.Prelude.{◌≡◌, ◌++◌, length, OnOk, IfOk};
ghost use Rattle.ms_top.specs.Text as spec;

use crate::plain::{PlainDeclaration, PlainModel};
use itoa::Buffer;
use std::alloc::{AllocError, Global};

/// The line behind the text of a solution.
const SEPARATOR: &[u8] = b"----------\n";

/// The closing line where no assignment meets the model.
pub const UNSATISFIABLE: &[u8] = b"=====UNSATISFIABLE=====\n";

fn push_variable(text: &mut Vec<u8>, name: &[u8], number: i64) -> Result<(), AllocError>
    ensures { OnOk result (text.new.items ≡ text.old.items ++ spec.variable_line name.now number) }
{
    let mut buffer = Buffer::new();
    text.extend_from_slice(name)?;
    text.extend_from_slice(b" = ")?;
    text.extend_from_slice(buffer.format(number).as_bytes())?;
    text.extend_from_slice(b";\n")
}

fn push_variables(
    text: &mut Vec<u8>,
    declarations: &[PlainDeclaration],
    point: &[i64],
) -> Result<(), AllocError>
    requires { length declarations.now ≡ length point.now }
    ensures { OnOk result (text.new.items ≡ text.old.items ++ spec.variable_lines declarations.now point.now) }
{
    for (i, declaration) in declarations.iter().enumerate() {
        push_variable(text, declaration.name.as_slice(), point[i])?;
    }
    Ok(())
}

/// The text of an assignment: a line for each declared variable, and the separator.
pub fn solution_text(
    alloc: Global,
    model: &PlainModel,
    point: &[i64],
) -> Result<Vec<u8>, AllocError>
    requires { length model.now.declarations ≡ length point.now }
    ensures { IfOk result (λ text. text.items ≡ spec.solution_text model.now point.now) }
{
    let mut text = Vec::new(alloc);
    push_variables(&mut text, model.declarations.as_slice(), point)?;
    text.extend_from_slice(SEPARATOR)?;
    Ok(text)
}
