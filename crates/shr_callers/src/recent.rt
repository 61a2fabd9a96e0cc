// SPDX-License-Identifier: GPL-2.0-only
//! A list with its journal, in one thread's hand: the oldest objects go.

ghost use Rattle.shr_callers.specs.Trimming.{TrimGives};

use shr_base::objects::Policy;
use shr_list::answers::ListScan;
use shr_list::list::List;

/// What `trim_to` answers.
#[derive(Clone, Copy, Debug, PartialEq, Eq)]
pub enum Trimmed {
    /// So many objects were freed from the head.
    Freed { objects: u32 },
    /// The list was closed into another.
    Closed,
    /// The journal and the list would have these numbers, one of them above its limit.
    Worn { entries: u32, items: u32 },
    /// There was no memory.
    Memory,
}

/// Frees the oldest objects of a list that has more than `most`, whatever their marks and pins.
///
/// It is one scan of the plain policy, whose entry has 0 as its worker and as its walk. A list of at
/// most `most` objects is scanned with a budget of 0, so its journal too gets an entry. After an
/// answer other than `Freed` the list is as it was.
///
/// Linux: `list_lru_shrink_walk` in include/linux/list_lru.h, with what is too much as its budget.
pub fn trim_to(list: &mut List, most: u32) -> Trimmed
    ensures answer { TrimGives list.old most result list.new }
{
    let asked = list.len().saturating_sub(most);
    match list.scan(0, 0, Policy::Plain, asked) {
        ListScan::Scanned { freed, .. } => Trimmed::Freed {
            objects: freed.len() as u32,
        },
        ListScan::Closed => Trimmed::Closed,
        ListScan::Worn { entries, items } => Trimmed::Worn { entries, items },
        ListScan::Memory => Trimmed::Memory,
    }
}
