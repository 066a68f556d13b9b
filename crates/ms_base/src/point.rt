ghost use Rattle.std.specs.Prelude.{◌≡◌, IfOk};

use std::alloc::{AllocError, Global};
use std::marker::Model;

/// An assignment: the number of each variable, in the order of the variables. Contracts see the
/// list.
#[derive(Debug, Drop)]
pub struct Point {
    numbers: Vec<i64>,
}

impl Model for Point {
    ghost use Rattle.std.specs.Prelude.{List, ℤ};
    ghost use Rattle.std.specs.Coded.{coded_list, coded_ℤ};

    ghost Value = { List ℤ };

    ghost coded = { coded_list coded_ℤ };

    ghost view = { λ p. p.numbers.items };
}

impl Point {
    /// Takes the vector as it is, and no memory.
    pub fn from_vec(numbers: Vec<i64>) -> Point
        ensures { result ≡ numbers.items }
    {
        Point { numbers }
    }

    pub fn into_vec(self) -> Vec<i64>
        ensures { result.items ≡ self }
    {
        self.numbers
    }

    pub fn as_slice(&self) -> &[i64]
        ensures { result.now ≡ self.now }
    {
        self.numbers.as_slice()
    }

    pub fn copy(&self, alloc: Global) -> Result<Point, AllocError>
        ensures { IfOk result (λ copied. copied ≡ self.now) }
    {
        Ok(Point {
            numbers: Vec::from_slice(alloc, &self.numbers)?,
        })
    }
}
