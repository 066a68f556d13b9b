//! Calls are drawn from a seed.
use crate::calls;
use ms_num::Ranges;
use std::alloc::{AllocError, Global};

/// How many calls are drawn.
pub const CALLS: u32 = 10_000;

/// A generator of numbers.
#[derive(Drop)]
pub struct Draws {
    pub state: u64,
}

impl Draws {
    pub fn next(&mut self) -> u64 {
        self.state = self
            .state
            .wrapping_mul(6364136223846793005)
            .wrapping_add(1442695040888963407);
        self.state >> 33
    }

    pub fn var(&mut self) -> u32 {
        (self.next() % 6) as u32
    }

    /// A number from -20 to 59, so many times as large, or one of the two above it.
    pub fn number(&mut self, stretch: i64) -> i64 {
        let far = ((self.next() % 80) as i64).wrapping_sub(20);
        let near = (self.next() % 3) as i64;
        far.wrapping_mul(stretch).wrapping_add(near)
    }

    /// An interval, but for some numbers.
    pub fn set(&mut self, alloc: Global, stretch: i64) -> Result<Ranges, AllocError> {
        let a = self.number(stretch);
        let b = self.number(stretch);
        let mut set = calls::between(alloc, a.min(b), a.max(b))?;
        for _ in 0..self.next() % 8 {
            set = set.without(alloc, self.number(stretch))?;
        }
        Ok(set)
    }
}
