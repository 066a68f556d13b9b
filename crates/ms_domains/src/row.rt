ghost use Rattle.std.specs.Prelude.{◌≡◌, ◌+◌, ◌-◌, ◌*◌, ◌/◌, ◌^◌, ◌<◌, ◌≤◌, length, slice_index, slice_set};
ghost use Rattle.ms_domains.specs.Row.{in_row, row_count, IsLast, IsFirst};

// The word of that place, where one word stands for the one that the row has at `at`.
#[inline(always)]
fn word(row: &[u64], at: usize, bits: u64, i: usize) -> u64
    requires { i < length row.now }
    ensures { result ≡ slice_index (slice_set row.now at bits) i }
{
    if i == at { bits } else { row[i] }
}

/// Whether the number is in the row, in which one word stands for the one at `at`.
#[inline(always)]
pub fn has(row: &[u64], at: usize, bits: u64, k: u64) -> bool
    requires { k < 64 * length row.now }
    ensures { result ≡ in_row (slice_set row.now at bits) k }
{
    ms_bits::has(word(row, at, bits, (k / 64) as usize), k % 64)
}

/// The greatest number of it up to `to`.
pub fn last(row: &[u64], at: usize, bits: u64, to: u64) -> Option<u64>
    requires { to < 64 * length row.now }
    ensures { IsLast (slice_set row.now at bits) to result }
{
    let top = (to / 64) as usize;
    if let Some(k) = ms_bits::last(word(row, at, bits, top), to % 64) {
        return Some(64 * top as u64 + k);
    }
    let mut i = top;
    'down: while i > 0 {
        i -= 1;
        if let Some(k) = ms_bits::last(word(row, at, bits, i), 63) {
            return Some(64 * i as u64 + k);
        }
    }
    None
}

/// The least number of it from `from` on.
pub fn first(row: &[u64], at: usize, bits: u64, from: u64) -> Option<u64>
    requires there { from < 64 * length row.now }
    requires few { length row.now < 2 ^ 32 }
    ensures { IsFirst (slice_set row.now at bits) from result }
{
    let bottom = (from / 64) as usize;
    if let Some(k) = ms_bits::first(word(row, at, bits, bottom), from % 64) {
        return Some(64 * bottom as u64 + k);
    }
    let mut i = bottom + 1;
    'up: while i < row.len() {
        if let Some(k) = ms_bits::first(word(row, at, bits, i), 0) {
            return Some(64 * i as u64 + k);
        }
        i += 1;
    }
    None
}

/// How many numbers of it there are from `from` to `to`.
pub fn count(row: &[u64], at: usize, bits: u64, from: u64, to: u64) -> u64
    requires ordered { from ≤ to }
    requires there { to < 64 * length row.now }
    requires few { length row.now < 2 ^ 32 }
    ensures { result ≡ row_count (slice_set row.now at bits) from (to - from + 1) }
{
    let bottom = (from / 64) as usize;
    let top = (to / 64) as usize;
    if bottom == top {
        return ms_bits::count(word(row, at, bits, bottom), from % 64, to % 64);
    }
    let mut total = ms_bits::count(word(row, at, bits, bottom), from % 64, 63);
    let mut i = bottom + 1;
    'across: while i < top {
        total += ms_bits::count(word(row, at, bits, i), 0, 63);
        i += 1;
    }
    total + ms_bits::count(word(row, at, bits, top), 0, to % 64)
}
