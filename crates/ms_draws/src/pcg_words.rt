ghost use Rattle.std.specs.Prelude.{◌≡◌};
ghost use Rattle.ms_draws.specs.Pcg.{pcg_word, pcg_after, seeded};

use crate::words::Words;
use rand_core::SeedableRng;
use rand_core::utils::NextWord;
use rand_pcg::Lcg64Xsh32;
use std::marker::Model;

/// The words of PCG32. Contracts see the generator's state and increment, as a list.
#[derive(Debug, Drop)]
pub struct PcgWords {
    generator: Lcg64Xsh32,
}

impl Model for PcgWords {
    ghost use Rattle.std.specs.Prelude.{List, ℕ};
    ghost use Rattle.ms_draws.specs.Pcg.{numbers_of};

    ghost Value = { List ℕ };

    ghost view = { λ w. numbers_of w.generator };
}

/// The words of a seed. Takes no memory.
pub fn pcg(seed: u64) -> PcgWords
    ensures { result ≡ seeded seed }
{
    PcgWords {
        generator: Lcg64Xsh32::seed_from_u64(seed),
    }
}

impl Words for PcgWords {
    ghost state = { λ words. words };

    ghost word_of = { pcg_word };

    ghost after = { pcg_after };

    fn word(&mut self) -> u32 {
        self.generator.next_word()
    }
}

#[cfg(test)]
mod tests {
    use super::*;

    fn four<W: Words>(words: &mut W) -> [u32; 4] {
        [words.word(), words.word(), words.word(), words.word()]
    }

    // The words of a program after PCG's reference code and the published rule of `seed_from_u64`.
    #[test]
    fn first_words(rt: HostRuntime) {
        let cases = [
            (0, [298703107, 4236525527, 336081875, 1056616254]),
            (1, [866585574, 2109535214, 3403630417, 296513984]),
            (2, [663514024, 4050668357, 535747897, 1254972678]),
            (42, [3400036912, 3349765444, 515166382, 4224707908]),
            (4294967296, [2453921566, 4255440720, 3139794758, 1567179675]),
            (u64::MAX, [2553256318, 1362994822, 3759657484, 3366838333]),
        ];
        for (seed, want) in cases {
            let mut words = pcg(seed);
            let mut again = pcg(seed);
            assert_eq!(rt; four(&mut words), want, "at seed {seed}");
            assert_eq!(rt; four(&mut again), want, "at seed {seed} again");
        }
    }
}
