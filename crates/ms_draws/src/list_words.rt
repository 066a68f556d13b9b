ghost use Rattle.std.specs.Prelude.{◌≡◌, IfOk};
ghost use Rattle.ms_draws.specs.List.{first_word, later_words};

use crate::words::Words;
use std::alloc::{AllocError, Global};
use std::marker::Model;

/// The words of a list, and then 0 for ever. Contracts see what is left of the list.
#[derive(Debug, Drop)]
pub struct ListWords {
    list: Vec<u32>,
    next: usize,
}

impl Model for ListWords {
    ghost use Rattle.std.specs.Prelude.{List, ℕ, drop};

    ghost Value = { List ℕ };

    ghost view = { λ w. drop w.next w.list.items };
}

impl ListWords {
    pub fn new(alloc: Global, list: &[u32]) -> Result<ListWords, AllocError>
        ensures { IfOk result (λ words. words ≡ list.now) }
    {
        Ok(ListWords {
            list: Vec::from_slice(alloc, list)?,
            next: 0,
        })
    }
}

impl Words for ListWords {
    ghost state = { λ words. words };

    ghost word_of = { first_word };

    ghost after = { later_words };

    fn word(&mut self) -> u32 {
        match self.list.get(self.next) {
            Some(&word) => {
                self.next += 1;
                word
            }
            None => 0,
        }
    }
}

#[cfg(test)]
mod tests {
    use super::*;
    use std::test::Fail;

    fn three<W: Words>(words: &mut W) -> [u32; 3] {
        [words.word(), words.word(), words.word()]
    }

    #[test]
    fn lists(rt: HostRuntime) -> Result<(), Fail> {
        let mut words = ListWords::new(rt.alloc(), &[13, 4294967295])?;
        assert_eq!(rt; three(&mut words), [13, 4294967295, 0]);
        assert_eq!(rt; words.word(), 0);
        Ok(())
    }
}
