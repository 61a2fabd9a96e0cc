// SPDX-License-Identifier: GPL-2.0-only
//! Scans.

ghost use Rattle.std.specs.Prelude.{◌++◌, ◌≤◌, IsPermutation};
ghost use Rattle.shr_model.specs.Bag.{serials_of};
ghost use Rattle.shr_list.specs.Answers.{ScanOfListGives, IfScanned};

use crate::answers::ListScan;
use crate::list::List;
use shr_base::journals::Entry;
use shr_base::objects::Policy;

impl List {
    /// Goes once from the head with a budget of `asked` visits, and does with each object what the
    /// policy says. `worker` and `walk` name the walk that asks.
    ///
    /// The next object is held before the callback, so a rotated one can be met again while others
    /// follow, and the scan ends after the object that was last when it was met. It costs its
    /// visits, and a count of them before where it begins with a rotation.
    ///
    /// Linux: `list_lru_walk_one` in mm/list_lru.c, whose count of isolated objects is `freed`'s
    /// length.
    pub fn scan(&mut self, worker: u16, walk: u64, policy: Policy, asked: u32) -> ListScan
        ensures answer { ScanOfListGives self.old worker walk policy asked result self.new }
        ensures budget { IfScanned result (λ freed visits. visits ≤ asked) }
        ensures parted { IfScanned result (λ freed visits. IsPermutation
            (serials_of self.old.items) (serials_of freed ++ serials_of self.new.items)) }
    {
        if self.contents.closed() {
            return ListScan::Closed;
        }
        let entry = self.contents.entries().len() as u32;
        if entry + 1 > self.most_entries {
            let left = self.contents.len() - self.contents.count_freed(policy, asked);
            return ListScan::Worn {
                entries: entry + 1,
                items: left as u32,
            };
        }
        if self.contents.reserve().is_err() {
            return ListScan::Memory;
        }
        let Ok(scan) = self.contents.scan(policy, asked) else {
            return ListScan::Memory;
        };
        self.contents.log(Entry::Scan {
            worker,
            walk,
            asked,
            policy,
            visits: scan.visits,
            freed: scan.freed.len() as u32,
            stopped: scan.stopped,
        });
        ListScan::Scanned {
            entry,
            freed: scan.freed,
            visits: scan.visits,
            stopped: scan.stopped,
        }
    }
}
