ghost use Rattle.std.specs.Prelude.{◌≡◌, List, map, slice_get};
ghost use Rattle.ms_num.specs.Span.{Span};
ghost use Rattle.ms_num.specs.Sets.{set_of, declared_spans};

use crate::iv::Iv;
use crate::ranges::Ranges;

/// What has an interval for each variable, as code reads it that walks over expressions.
///
/// Contracts see the list of these intervals.
pub trait Intervals: Copy {
    ghost spans: { Self → List Span };

    /// The interval of the variable, where there is one of that place.
    fn interval(self, variable: u32) -> Option<Iv>
        ensures { result ≡ slice_get (spans self) variable };
}

/// The intervals themselves.
impl Intervals for &[Iv] {
    ghost spans = { λ s. s.now };

    fn interval(self, variable: u32) -> Option<Iv> {
        self.get(variable as usize).copied()
    }
}

/// The declared set of each variable, of which an empty one has the interval 0..0.
impl Intervals for &[Ranges] {
    ghost spans = { λ s. declared_spans (map set_of s.now) };

    fn interval(self, variable: u32) -> Option<Iv> {
        let set = self.get(variable as usize)?;
        Some(set.declared_interval())
    }
}
