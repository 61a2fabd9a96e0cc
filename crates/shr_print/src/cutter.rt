// SPDX-License-Identifier: GPL-2.0-only
//! Where a section is cut.

ghost use Rattle.std.specs.Prelude.{◌≡◌, ◌≤◌, ◌+◌, ◌++◌, ◌∷◌, [], length, IfOk, OnOk};
ghost use Rattle.shr_print.specs.Cuts.{AreCuts, IsCutTo};

use crate::measure::Measure;
use shr_base::memory::Memory;
use std::alloc::Global;

/// Cuts items that come one after the other into runs of about the same weight. An item goes to the
/// run in which its middle lies, so that what one run has too much of isn't passed on to the next.
#[derive(Drop)]
pub(crate) struct Cutter {
    // Where each run so far begins.
    pub(crate) cuts: Vec<usize>,
    // How many items came, and what they weigh.
    pub(crate) at: usize,
    weight: usize,
    // The weight at which the next run begins, and that of a run.
    next: usize,
    share: usize,
}

impl Cutter {
    /// Before the first item, for runs of this weight.
    pub(crate) fn new(alloc: Global, share: usize) -> Result<Cutter, Memory>
        ensures cuts { IfOk result (λ cutter. IsCutTo cutter.cuts.items cutter.at) }
        ensures at { IfOk result (λ cutter. cutter.at ≡ 0) }
    {
        Ok(Cutter {
            cuts: vec![in alloc; 0]?,
            at: 0,
            weight: 0,
            next: share,
            share,
        })
    }

    // A run begins here, and the next one at the first share behind this weight. The first run began
    // before the first item.
    fn cut(&mut self, reached: usize) -> Result<(), Memory>
        requires { IsCutTo self.old.cuts.items self.old.at }
        ensures cuts { OnOk result (IsCutTo self.new.cuts.items self.new.at) }
        ensures at { OnOk result (self.new.at ≡ self.old.at) }
    {
        let share = self.share.max(1);
        self.next = (reached / share).saturating_add(1).saturating_mul(share);
        if self.at > 0 {
            self.cuts.push(self.at)?;
        }
        Ok(())
    }

    // So many items of this weight together come to the run.
    fn pass(&mut self, items: usize, weight: usize) -> Result<(), Memory>
        requires { IsCutTo self.old.cuts.items self.old.at }
        ensures cuts { OnOk result (IsCutTo self.new.cuts.items self.new.at) }
        ensures at { OnOk result (self.new.at ≡ self.old.at + items) }
    {
        self.at = self.at.checked_add(items).ok_or(Memory)?;
        self.weight = self.weight.saturating_add(weight);
        Ok(())
    }

    /// An item of this weight comes.
    pub(crate) fn item(&mut self, weight: usize) -> Result<(), Memory>
        requires { IsCutTo self.old.cuts.items self.old.at }
        ensures cuts { OnOk result (IsCutTo self.new.cuts.items self.new.at) }
        ensures at { OnOk result (self.new.at ≡ self.old.at + 1) }
    {
        let middle = self.weight.saturating_add(weight / 2);
        if middle >= self.next {
            self.cut(middle)?;
        }
        self.pass(1, weight)
    }

    /// So many items of the weight 1 come.
    pub(crate) fn row(&mut self, items: usize) -> Result<(), Memory>
        requires { IsCutTo self.old.cuts.items self.old.at }
        ensures cuts { OnOk result (IsCutTo self.new.cuts.items self.new.at) }
        ensures at { OnOk result (self.new.at ≡ self.old.at + items) }
    {
        let mut left = items;
        while left > 0 {
            if self.weight >= self.next {
                self.cut(self.weight)?;
            }
            let run = self.next.saturating_sub(self.weight).max(1).min(left);
            self.pass(run, run)?;
            left -= run;
        }
        Ok(())
    }

    /// The cuts, the last behind the last item.
    pub(crate) fn end(self) -> Result<Vec<usize>, Memory>
        requires { IsCutTo self.cuts.items self.at }
        ensures { IfOk result (λ cuts. AreCuts cuts.items self.at) }
    {
        let mut cuts = self.cuts;
        cuts.push(self.at)?;
        Ok(cuts)
    }
}

/// These items come, each by its measure.
pub(crate) fn cut_all<T, F: Fn(&T) -> Measure>(
    cutter: &mut Cutter,
    items: &[T],
    measure: &F,
) -> Result<(), Memory>
    requires callable { F.IsAlwaysCallable measure.now }
    requires cuts { IsCutTo cutter.old.cuts.items cutter.old.at }
    ensures cuts { OnOk result (IsCutTo cutter.new.cuts.items cutter.new.at) }
    ensures at { OnOk result (cutter.new.at ≡ cutter.old.at + length items.now) }
{
    for item in items {
        cutter.item(measure(item).weight)?;
    }
    Ok(())
}
