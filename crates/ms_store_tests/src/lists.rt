//! What the calls of a store leave, on lists of numbers.
use crate::calls::Change;
use ms_store::Cut;
use std::alloc::{AllocError, Global};

/// The current lists of numbers, one a variable, and the saved ones.
#[derive(Drop)]
pub struct Lists {
    pub alloc: Global,
    pub now: Vec<Vec<i64>>,
    pub saved: Vec<Vec<Vec<i64>>>,
}

fn copied(alloc: Global, lists: &[Vec<i64>]) -> Result<Vec<Vec<i64>>, AllocError> {
    let mut all = Vec::new(alloc);
    for list in lists {
        all.push(Vec::from_slice(alloc, list)?)?;
    }
    Ok(all)
}

fn left(alloc: Global, list: &[i64], change: Change) -> Result<Vec<i64>, AllocError> {
    let mut left = Vec::new(alloc);
    for &z in list {
        let stays = match change {
            Change::AtMost(n) => z <= n,
            Change::AtLeast(n) => z >= n,
            Change::OtherThan(n) => z != n,
        };
        if stays {
            left.push(z)?;
        }
    }
    Ok(left)
}

impl Lists {
    pub fn new(alloc: Global) -> Lists {
        Lists {
            alloc,
            now: Vec::new(alloc),
            saved: Vec::new(alloc),
        }
    }

    pub fn cut(&mut self, v: usize, change: Change) -> Result<Option<Cut>, AllocError> {
        let Some(list) = self.now.get_mut(v) else {
            return Ok(None);
        };
        let left = left(self.alloc, list, change)?;
        if left.is_empty() {
            return Ok(Some(Cut::Emptied));
        }
        if left.len() == list.len() {
            return Ok(Some(Cut::Kept));
        }
        *list = left;
        Ok(Some(Cut::Changed))
    }

    pub fn write(&mut self, v: usize, set: Vec<i64>) -> bool {
        match self.now.get_mut(v) {
            Some(list) => {
                *list = set;
                true
            }
            None => false,
        }
    }

    pub fn mark(&mut self) -> Result<usize, AllocError> {
        let number = self.saved.len();
        self.saved.push(copied(self.alloc, &self.now)?)?;
        Ok(number)
    }

    pub fn undo(&mut self, number: usize) -> bool {
        if number >= self.saved.len() {
            return false;
        }
        self.saved.truncate(number.saturating_add(1));
        if let Some(lists) = self.saved.pop() {
            self.now = lists;
        }
        true
    }

    pub fn grow(&mut self, set: &[i64]) -> Result<(), AllocError> {
        self.now.push(Vec::from_slice(self.alloc, set)?)?;
        for lists in self.saved.iter_mut() {
            lists.push(Vec::from_slice(self.alloc, set)?)?;
        }
        Ok(())
    }

    pub fn shrink(&mut self, vars: usize) -> bool {
        if vars > self.now.len() {
            return false;
        }
        self.now.truncate(vars);
        for lists in self.saved.iter_mut() {
            lists.truncate(vars);
        }
        true
    }
}
