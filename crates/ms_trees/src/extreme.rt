ghost use Rattle.std.specs.Prelude.{◌≡◌, Some};
ghost use Rattle.ms_trees.specs.Extreme.{extreme_at, so_far};

/// Which number of a list is taken.
#[derive(Clone, Copy)]
pub enum Extreme {
    Least,
    Greatest,
}

impl Extreme {
    /// One number more, where there may be none yet.
    pub fn take(self, best: Option<i64>, x: i64) -> i64
        ensures { Some result ≡ so_far (extreme_at self) best x }
    {
        match (best, self) {
            (None, _) => x,
            (Some(best), Extreme::Least) => best.min(x),
            (Some(best), Extreme::Greatest) => best.max(x),
        }
    }
}
