// SPDX-License-Identifier: GPL-2.0-only
//! A section and the one behind it.

ghost use Rattle.std.specs.Prelude.{◌+◌};
ghost use Rattle.shr_print.specs.Then.{then_text, then_known};
ghost use Rattle.shr_print.specs.ThenLaws.{then_empty, then_joined, then_none, then_both};

use crate::cutter::Cutter;
use crate::measure::Measure;
use crate::section::Section;
use shr_base::memory::Memory;
use shr_outside::outside::Sink;
use shr_outside::paper::Paper;

/// The items of a section, and then those of another.
#[derive(Drop)]
pub(crate) struct Then<A, B> {
    pub(crate) first: A,
    pub(crate) second: B,
}

impl<A: Section, B: Section> Section for Then<A, B> {
    ghost size = { λ s. A.size s.first + B.size s.second };

    ghost text = { λ s. then_text (A.text s.first) (B.text s.second) (A.size s.first) };

    ghost known = { λ s. then_known (A.known s.first) (B.known s.second) (A.size s.first) };

    fn among(&self, first: usize) -> usize {
        let front = self.first.among(first);
        front + self.second.among(first - front)
    }

    fn measure(&self) -> Measure {
        self.first.measure().and(self.second.measure())
    }

    fn cut(&self, cutter: &mut Cutter) -> Result<(), Memory> {
        self.first.cut(cutter)?;
        self.second.cut(cutter)
    }

    fn print<K: Sink>(&self, out: &mut Paper<K>, from: usize, to: usize) {
        let front = self.first.among(from);
        let end = self.first.among(to);
        self.first.print(out, front, end);
        self.second.print(out, from - front, to - end)
    }

    fn print_all<K: Sink>(&self, out: &mut Paper<K>) {
        self.first.print_all(out);
        self.second.print_all(out)
    }

    ghost empty = { λ s n. then_empty (A.text s.first) (B.text s.second) (A.size s.first) n (A.empty s.first) (B.empty s.second) };

    ghost joined = { λ s from to end. then_joined (A.text s.first) (B.text s.second) (A.size s.first) (B.size s.second) from to end (A.empty s.first) (B.empty s.second) (A.joined s.first) (B.joined s.second) };

    ghost none = { λ s n. then_none (A.known s.first) (B.known s.second) (A.size s.first) n (A.none s.first) (B.none s.second) };

    ghost both = { λ s from to end. then_both (A.known s.first) (B.known s.second) (A.size s.first) (B.size s.second) from to end (A.both s.first) (B.both s.second) };
}
