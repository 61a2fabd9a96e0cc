// SPDX-License-Identifier: GPL-2.0-only
//! The sections of a report that are printed by threads.

ghost use Rattle.std.specs.Prelude.{length, flat_map, refl, [], ◌∷◌};
ghost use Rattle.std.specs.List.{AllByRecursion};
ghost use Rattle.shr_report.specs.Body.{between_lines, IsBetweenNumbered};
ghost use Rattle.shr_laws.specs.Lines.{numbered};
ghost use Rattle.shr_laws.specs.Numbers.{IsListNumbered, IsPartNumbered, IsUseNumbered};
ghost use Rattle.shr_laws.specs.PartNumbers.{ArePartsWell};
ghost use Rattle.shr_laws.specs.Text.{worker_lines, place_lines, use_line};
ghost use Rattle.shr_print.specs.Runs.{run_of};
ghost use Rattle.shr_print.specs.Joined.{texts_none, texts_joined, numbered_none, numbered_joined, facts_none, facts_joined};

use crate::cutter::{Cutter, cut_all};
use crate::measure::{Measure, measure_all};
use crate::section::Section;
use shr_base::ends::{PlaceEnd, WorkerPart};
use shr_base::journals::UseStep;
use shr_base::memory::Memory;
use shr_laws::report::Report;
use shr_outside::outside::Sink;
use shr_outside::paper::Paper;
use shr_report::between::put_between;
use shr_report::printers::put_places;
use shr_report::uses::put_uses;
use shr_report::workers::put_answers;

/// The parts of the workers, numbered from 0.
#[derive(Drop)]
pub(crate) struct Workers<'a> {
    pub(crate) parts: &'a [WorkerPart],
}

// The line of an answer takes twice as long as another, and a walk has about three: its own, and those
// of its maps and attempts.
fn of_worker(part: &WorkerPart) -> Measure {
    let walks = Measure::of(part.walks.len().saturating_mul(3), 1);
    Measure::of(part.answers.len(), 2).and(walks)
}

impl<'a> Section for Workers<'a> {
    ghost size = { λ s. length s.parts.now };

    ghost text = { λ s from to. numbered worker_lines from (run_of from to s.parts.now) };

    ghost known = { λ s from to. ArePartsWell s.parts.now → AllByRecursion IsPartNumbered (run_of from to s.parts.now) };

    fn among(&self, first: usize) -> usize {
        first.min(self.parts.len())
    }

    fn measure(&self) -> Measure {
        measure_all(self.parts, &of_worker)
    }

    fn cut(&self, cutter: &mut Cutter) -> Result<(), Memory> {
        cut_all(cutter, self.parts, &of_worker)
    }

    fn print<K: Sink>(&self, out: &mut Paper<K>, from: usize, to: usize) {
        for worker in from..to {
            put_answers(out, worker, &self.parts[worker]);
        }
    }

    fn print_all<K: Sink>(&self, out: &mut Paper<K>) {
        self.print(out, 0, self.parts.len())
    }

    ghost empty = { λ s n. numbered_none worker_lines s.parts.now n };

    ghost joined = { λ s. numbered_joined worker_lines s.parts.now };

    ghost none = { λ s n well. facts_none IsPartNumbered s.parts.now n };

    ghost both = { λ s from to end le le' within front next well. facts_joined IsPartNumbered s.parts.now from to end le le' (front well) (next well) };
}

/// The lists.
#[derive(Drop)]
pub(crate) struct Lists<'a> {
    pub(crate) ends: &'a [PlaceEnd],
}

fn of_list(end: &PlaceEnd) -> Measure {
    Measure::of(end.entries.len().saturating_add(end.items.len()), 1)
}

impl<'a> Section for Lists<'a> {
    ghost size = { λ s. length s.ends.now };

    ghost text = { λ s from to. flat_map place_lines (run_of from to s.ends.now) };

    ghost known = { λ s from to. AllByRecursion IsListNumbered (run_of from to s.ends.now) };

    fn among(&self, first: usize) -> usize {
        first.min(self.ends.len())
    }

    fn measure(&self) -> Measure {
        measure_all(self.ends, &of_list)
    }

    fn cut(&self, cutter: &mut Cutter) -> Result<(), Memory> {
        cut_all(cutter, self.ends, &of_list)
    }

    fn print<K: Sink>(&self, out: &mut Paper<K>, from: usize, to: usize) {
        put_places(out, &self.ends[from..to])
    }

    fn print_all<K: Sink>(&self, out: &mut Paper<K>) {
        self.print(out, 0, self.ends.len())
    }

    ghost empty = { λ s n. texts_none place_lines s.ends.now n };

    ghost joined = { λ s from to end le le' within. texts_joined place_lines s.ends.now from to end le le' };

    ghost none = { λ s n. facts_none IsListNumbered s.ends.now n };

    ghost both = { λ s from to end le le' within. facts_joined IsListNumbered s.ends.now from to end le le' };
}

/// What stands between the lists and the operations: one item.
#[derive(Drop)]
pub(crate) struct Between<'a> {
    pub(crate) report: &'a Report,
}

impl<'a> Section for Between<'a> {
    ghost size = { λ s. 1 };

    ghost text = { λ s from to. flat_map between_lines (run_of from to (s.report.now ∷ [])) };

    ghost known = { λ s from to. AllByRecursion IsBetweenNumbered (run_of from to (s.report.now ∷ [])) };

    fn among(&self, first: usize) -> usize {
        first.min(1)
    }

    fn measure(&self) -> Measure {
        let ends = Measure::of(self.report.units.len(), 1);
        let bits = Measure::of(self.report.maps.len(), 1);
        let words = Measure::of(self.report.deferred.len(), 1);
        let of_pools = Measure::of(self.report.pool_deferred.len(), 1);
        ends.and(bits).and(words).and(of_pools)
    }

    fn cut(&self, cutter: &mut Cutter) -> Result<(), Memory> {
        cutter.item(self.measure().weight)
    }

    fn print<K: Sink>(&self, out: &mut Paper<K>, from: usize, to: usize) {
        if from < to {
            put_between(out, self.report)
        }
    }

    fn print_all<K: Sink>(&self, out: &mut Paper<K>) {
        self.print(out, 0, 1)
    }

    ghost empty = { λ s n. texts_none between_lines (s.report.now ∷ []) n };

    ghost joined = { λ s from to end le le' within. texts_joined between_lines (s.report.now ∷ []) from to end le le' };

    ghost none = { λ s n. facts_none IsBetweenNumbered (s.report.now ∷ []) n };

    ghost both = { λ s from to end le le' within. facts_joined IsBetweenNumbered (s.report.now ∷ []) from to end le le' };
}

/// The operations on groups' usages.
#[derive(Drop)]
pub(crate) struct Uses<'a> {
    pub(crate) steps: &'a [UseStep],
}

impl<'a> Section for Uses<'a> {
    ghost size = { λ s. length s.steps.now };

    ghost text = { λ s from to. flat_map use_line (run_of from to s.steps.now) };

    ghost known = { λ s from to. AllByRecursion IsUseNumbered (run_of from to s.steps.now) };

    fn among(&self, first: usize) -> usize {
        first.min(self.steps.len())
    }

    fn measure(&self) -> Measure {
        Measure::of(self.steps.len(), 1)
    }

    fn cut(&self, cutter: &mut Cutter) -> Result<(), Memory> {
        cutter.row(self.steps.len())
    }

    fn print<K: Sink>(&self, out: &mut Paper<K>, from: usize, to: usize) {
        put_uses(out, &self.steps[from..to])
    }

    fn print_all<K: Sink>(&self, out: &mut Paper<K>) {
        self.print(out, 0, self.steps.len())
    }

    ghost empty = { λ s n. texts_none use_line s.steps.now n };

    ghost joined = { λ s from to end le le' within. texts_joined use_line s.steps.now from to end le le' };

    ghost none = { λ s n. facts_none IsUseNumbered s.steps.now n };

    ghost both = { λ s from to end le le' within. facts_joined IsUseNumbered s.steps.now from to end le le' };
}
