// SPDX-License-Identifier: GPL-2.0-only
//! The walk of all pools.

ghost use Rattle.std.specs.Prelude.{◌≡◌, ◌-◌, ◌<◌, ◌≤◌, ◌^◌, [], length, OnOk};
ghost use Rattle.shr_pass.specs.Passes.{MatchPass};
ghost use Rattle.shr_plain.specs.Seat.{ActsPlain, plain_walks_of};
ghost use Rattle.shr_plain.specs.Settings.{IsPoolOf, setting_of, home_place, room_of};
ghost use Rattle.shr_plain.specs.Walks.{PassGives, AreTried, Answers, PlainWalkGives, try_of, units_freed, try_lacked_memory};

use crate::table::PlainSeat;
use crate::units::Units;
use shr_base::log::Log;
use shr_base::memory::Memory;
use shr_base::places::Serial;
use shr_base::walks::{Ending, PlainAnswer, PlainTry, PlainWalk};
use shr_pass::answers::PassAnswer;
use shr_pass::pass::{Pressure, shrink_once};
use std::mem::replace;
use std::sync::Wait;

// A walk of all pools: by this command, with this number among the walks of its worker, for this
// node, and of this priority, which is 12 for the mildest and 0 for the hardest.
#[derive(Clone, Copy)]
struct Walk {
    by: Serial,
    number: u32,
    node: u8,
    priority: u8,
}

// The try that a pass is.
fn try_of(answer: PassAnswer) -> PlainTry
    ensures { result ≡ try_of answer }
{
    match answer {
        PassAnswer::Empty { version } => PlainTry::Empty { version },
        PassAnswer::Skip { len, version } => PlainTry::Skip { len, version },
        PassAnswer::Ran { pass } => PlainTry::Ran { pass },
    }
}

// How much a try freed.
fn freed_in(tried: PlainTry) -> u64
    ensures { result ≡ units_freed tried }
{
    match tried {
        PlainTry::Empty { version: _ } => 0,
        PlainTry::Skip { len: _, version: _ } => 0,
        PlainTry::Ran { pass } => pass.freed,
    }
}

// Whether a try ended for want of memory.
fn lacked_memory(tried: PlainTry) -> bool
    ensures { result ≡ try_lacked_memory tried }
{
    match tried {
        PlainTry::Empty { version: _ } => false,
        PlainTry::Skip { len: _, version: _ } => false,
        PlainTry::Ran { pass } => match pass.ending {
            Ending::NoRoom => true,
            Ending::Through => false,
            Ending::Stop => false,
            Ending::Worn { spent: _ } => false,
        },
    }
}

impl<'a> PlainSeat<'a> {
    /// Makes room for the record of a walk. On `Memory` there is as much as before.
    pub fn reserve_walk(&mut self) -> Result<(), Memory>
        ensures rest { self.new ≡ record self.old { spare = self.new.spare } }
        ensures spare { OnOk result (0 < self.new.spare) }
        ensures grows { self.old.spare ≤ self.new.spare }
    {
        self.walks.reserve(1)
    }

    /// Takes the records of all its walks.
    pub fn take_walks(&mut self) -> Log<PlainWalk>
        ensures walks { result ≡ plain_walks_of self.old }
        ensures left { self.new ≡ record self.old {
          state = record self.old.state { walks = [] };
          spare = 0;
        } }
    {
        replace(&mut self.walks, Log::new(self.pools.alloc))
    }

    // One pass over a pool, for a walk.
    fn pass<R: Wait>(&mut self, rt: &R, walk: Walk, pool: u8) -> PassAnswer
        requires pool { IsPoolOf self.old.pools.settings.items self.old.pools.sizes pool walk.node }
        requires priority { walk.priority ≤ 12 }
        ensures few { MatchPass result (Unit {0}) (λ p. p.freed ≤ 2097152) }
        ensures passed { ActsPlain (PassGives (setting_of self.old.pools.settings.items pool)
            (home_place self.old.pools.settings.items pool walk.node)
            (room_of self.old.pools.settings.items self.old.pools.sizes pool walk.node)
            walk.by.worker walk.number walk.priority result) self.old self.new }
    {
        let pools = self.pools;
        let setting = pools.settings.as_slice()[pool as usize];
        let place = pools.place(pool, walk.node);
        let mut units = Units {
            rt,
            pools,
            place,
            room: pools.sizes.row(place),
            floor: setting.floor,
            worker: walk.by.worker,
            walk: walk.number,
            calls: 0,
            last: None,
        };
        shrink_once(
            &mut self.deferred,
            &mut units,
            &mut self.units,
            place,
            Pressure {
                priority: walk.priority,
                seeks: setting.seeks,
                batch: setting.batch,
            },
        )
    }

    // A pass over each pool in rising order, until one ends for want of memory.
    fn walk_pools<R: Wait>(&mut self, rt: &R, tries: &mut Log<PlainTry>, walk: Walk) -> PlainAnswer
        requires node { walk.node < self.old.pools.sizes.nodes }
        requires priority { walk.priority ≤ 12 }
        requires blank { tries.old.items ≡ [] }
        ensures tried { ActsPlain (AreTried self.old.pools.settings.items self.old.pools.sizes
            walk.by walk.number walk.node walk.priority 0 tries.new.items) self.old self.new }
        ensures answers { Answers (length self.old.pools.settings.items) tries.new.items result }
    {
        let pools = self.pools.settings.len();
        if tries.reserve(pools).is_err() {
            return PlainAnswer::Memory { freed: 0 };
        }
        let mut freed = 0;
        for pool in 0..pools {
            let answer = self.pass(rt, walk, pool as u8);
            let tried = try_of(answer);
            tries.push(tried);
            freed += freed_in(tried);
            if lacked_memory(tried) {
                return PlainAnswer::Memory { freed };
            }
        }
        PlainAnswer::Walked { freed }
    }

    /// One walk of all pools for a node: a pass over each in rising order, until one ends for want
    /// of memory. Its record is put behind the seat's other walks, and its number is how many these
    /// are.
    ///
    /// `priority` is 12 for the mildest walk and 0 for the hardest. It waits for the rooms, and takes
    /// memory for the tries and the entries. After `Memory` what was freed stays freed, and the
    /// record has the tries that were made.
    ///
    /// Linux: what `shrink_slab` in mm/shrinker.c does for the root with the shrinkers that aren't
    /// `SHRINKER_MEMCG_AWARE`.
    pub fn walk_plain<R: Wait>(&mut self, rt: &R, by: Serial, node: u8, priority: u8) -> PlainAnswer
        requires node { node < self.old.pools.sizes.nodes }
        requires priority { priority ≤ 12 }
        requires room { 0 < self.old.spare }
        requires few { length self.old.state.walks < 2 ^ 32 }
        ensures walked { ActsPlain (PlainWalkGives self.old.pools.settings.items
            self.old.pools.sizes by node priority result)
            (record self.old { spare = self.old.spare - 1 }) self.new }
    {
        let walk = Walk {
            by,
            number: self.walks.len() as u32,
            node,
            priority,
        };
        let mut tries = Log::new(self.pools.alloc);
        let answer = self.walk_pools(rt, &mut tries, walk);
        self.walks.push(PlainWalk {
            by,
            node,
            priority,
            tries,
            answer,
        });
        answer
    }
}
