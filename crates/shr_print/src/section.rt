// SPDX-License-Identifier: GPL-2.0-only
//! A section of a report, that can be printed by runs of its items.

ghost use Rattle.std.specs.Prelude.{◌≡◌, ◌≤◌, ◌<◌, ◌+◌, ◌++◌, [], List, ℕ, OnOk, min};
ghost use Rattle.shr_outside.specs.Paper.{Prints};
ghost use Rattle.shr_print.specs.Cuts.{IsCutTo};

use crate::cutter::Cutter;
use crate::measure::Measure;
use shr_base::memory::Memory;
use shr_outside::outside::Sink;
use shr_outside::paper::Paper;

/// A section of a report, that can be printed by runs of its items.
pub(crate) trait Section {
    /// The number of its items.
    ghost size: { Self → ℕ };

    /// The text of the items from one number up to another.
    ghost text: { Self → ℕ → ℕ → List ℕ };

    /// What is known of those items once they were printed.
    ghost known: { Self → ℕ → ℕ → Type 0 };

    /// How many of its items are among so many first ones. All may be more than a `usize` counts.
    fn among(&self, first: usize) -> usize
        ensures { result ≡ min first (size self.now) };

    /// How much there is to print.
    fn measure(&self) -> Measure;

    /// Its items come to one who cuts.
    fn cut(&self, cutter: &mut Cutter) -> Result<(), Memory>
        requires { IsCutTo cutter.old.cuts.items cutter.old.at }
        ensures cuts { OnOk result (IsCutTo cutter.new.cuts.items cutter.new.at) }
        ensures at { OnOk result (cutter.new.at ≡ cutter.old.at + size self.now) };

    /// Prints a run of its items.
    fn print<K: Sink>(&self, out: &mut Paper<K>, from: usize, to: usize)
        requires { (from ≤ to) × (to ≤ size self.now) }
        ensures printed { Prints K.written K.faults out.old out.new (text self.now from to) }
        ensures known { known self.now from to };

    /// Prints all its items.
    fn print_all<K: Sink>(&self, out: &mut Paper<K>)
        ensures printed { Prints K.written K.faults out.old out.new
            (text self.now 0 (size self.now)) }
        ensures known { known self.now 0 (size self.now) };

    /// No item has no text.
    ghost empty: { (s : Self) (n : ℕ) → text s n n ≡ [] };

    /// Two runs of neighbours are one.
    ghost joined: { (s : Self) (from to end : ℕ) → from ≤ to → to ≤ end → end ≤ size s → text s from to ++ text s to end ≡ text s from end };

    /// Of no item all is known.
    ghost none: { (s : Self) (n : ℕ) → known s n n };

    /// What is known of two runs of neighbours is known of both.
    ghost both: { (s : Self) (from to end : ℕ) → from ≤ to → to ≤ end → end ≤ size s → known s from to → known s to end → known s from end };
}
