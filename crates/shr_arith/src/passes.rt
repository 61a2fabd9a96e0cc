// SPDX-License-Identifier: GPL-2.0-only
//! One pass.

ghost use Rattle.std.specs.Prelude.{◌≡◌, ◌+◌, ◌*◌, ◌<◌, ◌≤◌, IfSome, IfNone};
ghost use Rattle.shr_model.specs.Pass.{due, ask_size, MadeOf};
ghost use Rattle.shr_arith.specs.Passes.{IsPass, freed_of, ending_of};

use crate::formulas::{next_ask, next_deferred, plan};
use crate::plans::Plan;
use crate::simple::Simple;

/// How hard a pass presses on its objects.
///
/// Linux: the `priority` that `do_shrink_slab` of mm/shrinker.c is called with, and `seeks` and
/// `batch` of `struct shrinker`.
#[derive(Clone, Copy, Debug, PartialEq, Eq)]
pub struct Pressure {
    /// 12 for the mildest pass and 0 for the hardest.
    pub priority: u8,
    /// The cost of making an object again, 0 for none.
    pub seeks: u32,
    /// Objects per scan call, at most 20,000, and 0 for the default of 128.
    pub batch: u32,
}

/// What a pass did.
///
/// Linux: the locals of `do_shrink_slab` in mm/shrinker.c.
#[derive(Clone, Copy, Debug, PartialEq, Eq)]
pub struct Pass {
    /// The count that it began with (`freeable`).
    pub len: u32,
    /// The scan calls that were answered with a number.
    pub calls: u32,
    /// How many objects these calls were asked for together (`total_scan` before the loop, less what
    /// is left of it after).
    pub asked: u64,
    /// How many objects they freed.
    pub freed: u64,
    /// The work to hand to the next pass as its `deferred` (`next_deferred`).
    pub next: u64,
    /// A scan call answered that no progress can be made (`SHRINK_STOP`).
    pub stopped: bool,
}

// What the scan calls of a pass did together.
#[derive(Clone, Copy)]
struct Tally {
    calls: u32,
    asked: u64,
    freed: u64,
    stopped: bool,
}

// Scans until all that is due was asked for, or an answer ends it.
fn scan_due<S: Simple>(shrinker: &mut S, plan: &Plan, len: u32) -> Tally
    requires plan { (0 < plan.now.batch) × (plan.now.total ≤ 2 * len) }
    requires len { (0 < len) × (len ≤ 1048576) }
    ensures made { MadeOf result.calls (ending_of result.stopped) (due plan.now.batch len
        plan.now.total) }
    ensures asked { result.asked ≡ result.calls * ask_size plan.now.batch len plan.now.total }
    ensures freed { result.freed ≤ result.asked }
    ensures frees { S.frees shrinker.old result.freed shrinker.new }
{
    let mut left = plan.total;
    let mut tally = Tally {
        calls: 0,
        asked: 0,
        freed: 0,
        stopped: false,
    };
    'scanning: while let Some(asked) = next_ask(plan, left, len) {
        let Some(freed) = shrinker.scan(asked) else {
            tally.stopped = true;
            return tally;
        };
        left -= asked as u64;
        tally.calls += 1;
        tally.asked += asked as u64;
        tally.freed += freed as u64;
    }
    tally
}

/// One pass. It counts, and if the count isn't 0 takes over the `deferred` work of earlier passes,
/// scans what is due, and says how much work to defer.
///
/// `None` says that the count was 0: then nothing was scanned, and the deferred work stays as it
/// was. It takes no memory of its own.
///
/// Linux: `do_shrink_slab` in mm/shrinker.c.
pub fn shrink<S: Simple>(shrinker: &mut S, deferred: u64, pressure: Pressure) -> Option<Pass>
    requires sizes { (pressure.priority ≤ 12) × (pressure.batch ≤ 20000) }
    ensures empty { IfNone result (S.counts shrinker.old 0) }
    ensures counts { IfSome result (λ p. S.counts shrinker.old p.len) }
    ensures pass { IfSome result (IsPass pressure deferred) }
    ensures frees { S.frees shrinker.old (freed_of result) shrinker.new }
{
    let len = shrinker.count();
    if len == 0 {
        return None;
    }
    let plan = plan(
        len,
        deferred,
        pressure.priority,
        pressure.seeks,
        pressure.batch,
    );
    let tally = scan_due(shrinker, &plan, len);
    let next = next_deferred(deferred, plan.delta, tally.asked, len);
    Some(Pass {
        len,
        calls: tally.calls,
        asked: tally.asked,
        freed: tally.freed,
        next,
        stopped: tally.stopped,
    })
}
