ghost use Rattle.std.specs.Prelude.{◌≡◌, ◌+◌, ◌-◌, ◌<◌, ◌≤◌, [], ◌∷◌};
ghost use Rattle.ms_domains.specs.Row.{in_row, row_count, IsLast, IsFirst};

pub fn has(word: u64, k: u64) -> bool
    requires { k < 64 }
    ensures { result ≡ in_row (word ∷ []) k }
{
    ms_bits::has(word, k)
}

pub fn last(word: u64, to: u64) -> Option<u64>
    requires { to < 64 }
    ensures { IsLast (word ∷ []) to result }
{
    ms_bits::last(word, to)
}

pub fn first(word: u64, from: u64) -> Option<u64>
    requires { from < 64 }
    ensures { IsFirst (word ∷ []) from result }
{
    ms_bits::first(word, from)
}

pub fn count(word: u64, from: u64, to: u64) -> u64
    requires ordered { from ≤ to }
    requires within { to < 64 }
    ensures { result ≡ row_count (word ∷ []) from (to - from + 1) }
{
    ms_bits::count(word, from, to)
}
