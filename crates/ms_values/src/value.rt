ghost use Rattle.std.specs.Prelude.{◌≡◌, IfOk};

use crate::texts::Texts;
use ms_base::Bytes;
use ms_num::Ranges;
use ms_trees::{Ground, Trees, copy_trees};
use std::alloc::{AllocError, Global};

/// So many indices, from the lowest on. The lowest is 1 where there are none.
#[derive(Clone, Copy, PartialEq, Eq)]
pub struct Iv1 {
    pub lo: i64,
    pub len: u32,
}

/// The value of an expression. A known array of integers or Booleans has leaves as elements, of which an integer may be
/// undefined.
#[derive(Drop)]
pub enum Value {
    Number(i64),
    Truth(bool),
    Set(Ranges),
    Text(Bytes),
    /// A variable integer or Boolean.
    Tree(Ground),
    /// An array of integers or Booleans.
    Trees1(Iv1, Trees),
    /// The same of two dimensions, row by row.
    Trees2(Iv1, Iv1, Trees),
    /// An array of strings.
    Texts1(Iv1, Texts),
    /// The same of two dimensions, row by row.
    Texts2(Iv1, Iv1, Texts),
}

impl Value {
    pub fn copy(&self, alloc: Global) -> Result<Value, AllocError>
        ensures { IfOk result (λ copied. copied ≡ self.now) }
    {
        match self {
            Value::Number(n) => Ok(Value::Number(*n)),
            Value::Truth(b) => Ok(Value::Truth(*b)),
            Value::Set(set) => Ok(Value::Set(set.copy(alloc)?)),
            Value::Text(text) => Ok(Value::Text(text.copy(alloc)?)),
            Value::Tree(tree) => Ok(Value::Tree(tree.copy(alloc)?)),
            Value::Trees1(indices, trees) => Ok(Value::Trees1(
                *indices,
                copy_trees(alloc, trees.as_slice())?,
            )),
            Value::Trees2(rows, columns, trees) => {
                Ok(Value::Trees2(*rows, *columns, copy_trees(alloc, trees.as_slice())?))
            }
            Value::Texts1(indices, texts) => Ok(Value::Texts1(*indices, texts.copy(alloc)?)),
            Value::Texts2(rows, columns, texts) => {
                Ok(Value::Texts2(*rows, *columns, texts.copy(alloc)?))
            }
        }
    }
}
