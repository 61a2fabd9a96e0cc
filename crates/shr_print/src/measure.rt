// SPDX-License-Identifier: GPL-2.0-only
//! How much of a report there is to print.

/// About how many lines there are, and what they weigh: a line of an answer takes twice as long to
/// print as another, so it weighs 2.
#[derive(Clone, Copy)]
pub(crate) struct Measure {
    pub(crate) lines: usize,
    pub(crate) weight: usize,
}

impl Measure {
    /// So many lines, each of this weight.
    pub(crate) fn of(lines: usize, weight: usize) -> Measure {
        Measure {
            lines,
            weight: lines.saturating_mul(weight),
        }
    }

    /// This and another, as far as a `usize` counts.
    pub(crate) fn and(self, other: Measure) -> Measure {
        Measure {
            lines: self.lines.saturating_add(other.lines),
            weight: self.weight.saturating_add(other.weight),
        }
    }
}

/// The measure of all items, each of which has this one.
pub(crate) fn measure_all<T, F: Fn(&T) -> Measure>(items: &[T], measure: &F) -> Measure
    requires { F.IsAlwaysCallable measure.now }
{
    let mut whole = Measure::of(0, 1);
    for item in items {
        whole = whole.and(measure(item));
    }
    whole
}
