ghost use Rattle.std.specs.Prelude.{◌≡◌, IfOk};

use std::alloc::{AllocError, Global};
use std::marker::Model;

/// The variables of a branching, each by its place among the variables. Contracts see the list.
#[derive(Debug, Drop)]
pub struct Order {
    variables: Vec<u32>,
}

impl Model for Order {
    ghost use Rattle.std.specs.Prelude.{List, ℕ};
    ghost use Rattle.std.specs.Coded.{coded_list, coded_ℕ};

    ghost Value = { List ℕ };

    ghost coded = { coded_list coded_ℕ };

    ghost view = { λ o. o.variables.items };
}

impl Order {
    /// Takes the vector as it is, and no memory.
    pub fn from_vec(variables: Vec<u32>) -> Order
        ensures { result ≡ variables.items }
    {
        Order { variables }
    }

    pub fn into_vec(self) -> Vec<u32>
        ensures { result.items ≡ self }
    {
        self.variables
    }

    pub fn as_slice(&self) -> &[u32]
        ensures { result.now ≡ self.now }
    {
        self.variables.as_slice()
    }

    pub fn copy(&self, alloc: Global) -> Result<Order, AllocError>
        ensures { IfOk result (λ copied. copied ≡ self.now) }
    {
        Ok(Order {
            variables: Vec::from_slice(alloc, &self.variables)?,
        })
    }
}

/// Which values of a variable are tried first.
#[derive(Clone, Copy, Debug, PartialEq, Eq)]
pub enum ValueChoice {
    /// The least value alone, then the others.
    Least,
    /// The greatest value alone, then the others.
    Greatest,
    /// The values up to the middle, then the others.
    LowerHalf,
}

/// How a search splits a box: which variable it takes next, and which of its values come first.
#[derive(Debug, Drop)]
pub struct Branching {
    pub order: Order,
    /// Takes the variable with the fewest values, the first of them in the order, and not simply the first.
    pub by_size: bool,
    pub value: ValueChoice,
}

impl Branching {
    pub fn copy(&self, alloc: Global) -> Result<Branching, AllocError>
        ensures { IfOk result (λ copied. copied ≡ self.now) }
    {
        Ok(Branching {
            order: self.order.copy(alloc)?,
            by_size: self.by_size,
            value: self.value,
        })
    }
}
