ghost use Rattle.std.specs.Prelude.{◌≡◌, ◌-◌, ◌^◌, min, IfOk, length, sum_by};

use std::alloc::{AllocError, Global};
use std::marker::Model;

/// A row of a table. Contracts see the list of its numbers.
#[derive(Debug, Drop)]
pub struct Row {
    numbers: Vec<i64>,
}

impl Model for Row {
    ghost use Rattle.std.specs.Prelude.{List, ℤ};
    ghost use Rattle.std.specs.Coded.{coded_list, coded_ℤ};

    ghost Value = { List ℤ };

    ghost coded = { coded_list coded_ℤ };

    ghost view = { λ r. r.numbers.items };
}

impl Row {
    /// Takes the vector as it is, and no memory.
    pub fn from_vec(numbers: Vec<i64>) -> Row
        ensures { result ≡ numbers.items }
    {
        Row { numbers }
    }

    pub fn into_vec(self) -> Vec<i64>
        ensures { result.items ≡ self }
    {
        self.numbers
    }

    pub fn as_slice(&self) -> &[i64]
        ensures { result.now ≡ self.now }
    {
        self.numbers.as_slice()
    }

    pub fn copy(&self, alloc: Global) -> Result<Row, AllocError>
        ensures { IfOk result (λ copied. copied ≡ self.now) }
    {
        Ok(Row {
            numbers: Vec::from_slice(alloc, &self.numbers)?,
        })
    }
}

/// The rows of a table. Contracts see the list of the rows.
#[derive(Debug, Drop)]
pub struct Rows {
    rows: Vec<Row>,
}

impl Model for Rows {
    ghost use Rattle.std.specs.Prelude.{List, ℤ};
    ghost use Rattle.std.specs.Coded.{coded_list, coded_ℤ};

    ghost Value = { List (List ℤ) };

    ghost coded = { coded_list (coded_list coded_ℤ) };

    ghost view = { λ t. t.rows.items };
}

impl Rows {
    /// Takes the vector as it is, and no memory.
    pub fn from_vec(rows: Vec<Row>) -> Rows
        ensures { result ≡ rows.items }
    {
        Rows { rows }
    }

    pub fn into_vec(self) -> Vec<Row>
        ensures { result.items ≡ self }
    {
        self.rows
    }

    pub fn as_slice(&self) -> &[Row]
        ensures { result.now ≡ self.now }
    {
        self.rows.as_slice()
    }

    pub fn copy(&self, alloc: Global) -> Result<Rows, AllocError>
        ensures { IfOk result (λ copied. copied ≡ self.now) }
    {
        let mut rows = Vec::new(alloc);
        for row in &self.rows {
            rows.push(row.copy(alloc)?)?;
        }
        Ok(Rows { rows })
    }

    /// How many numbers the rows have, or 2^64 - 1 where that is greater.
    pub fn numbers(&self) -> u64
        ensures { result ≡ min (sum_by length self.now) (2 ^ 64 - 1) }
    {
        let mut total = 0u64;
        for row in &self.rows {
            total = total.saturating_add(row.as_slice().len() as u64);
        }
        total
    }
}
