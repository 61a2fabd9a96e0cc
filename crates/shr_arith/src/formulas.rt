// SPDX-License-Identifier: GPL-2.0-only
//! The formulas of a pass.

ghost use Rattle.std.specs.Prelude.{◌≡◌, ◌^◌, ◌<◌, ◌≤◌};
ghost use Rattle.shr_model.specs.Pass.{batch_of, delta_of, total_of, next_of};
ghost use Rattle.shr_model.specs.PassSteps.{ask_of};

use crate::SHRINK_BATCH;
use crate::plans::Plan;

// The new work of a pass. Where `seeks` is 0 the objects cost nothing to make again, and half of
// them go.
fn delta(freeable: u32, priority: u8, seeks: u32) -> u64
    requires { priority ≤ 12 }
    ensures value { result ≡ delta_of freeable priority seeks }
    ensures small { result < 2 ^ 34 }
{
    if seeks == 0 {
        (freeable / 2) as u64
    } else {
        (freeable >> priority) as u64 * 4 / seeks as u64
    }
}

/// Plans a pass over `freeable` objects, of which `nr` were deferred by earlier passes.
///
/// `priority` is 12 for the mildest pass and 0 for the hardest. A `batch` of 0 stands for
/// `SHRINK_BATCH`. Linux: the head of `do_shrink_slab` in mm/shrinker.c.
pub fn plan(freeable: u32, nr: u64, priority: u8, seeks: u32, batch: u32) -> Plan
    requires { (priority ≤ 12) × (batch ≤ 20000) }
    ensures delta { result.delta ≡ delta_of freeable priority seeks }
    ensures total { result.total ≡ total_of freeable nr priority seeks }
    ensures batch { result.batch ≡ batch_of batch }
{
    let delta = delta(freeable, priority, seeks);
    let total = (nr >> priority)
        .saturating_add(delta)
        .min(2 * freeable as u64);
    let batch = if batch == 0 { SHRINK_BATCH } else { batch };
    Plan {
        delta,
        total,
        batch,
    }
}

/// The number of objects to ask for next, with `left` of the total still to scan.
///
/// None if and only if less than a batch and less than the count is left. Linux: the `while` of
/// `do_shrink_slab` in mm/shrinker.c.
pub fn next_ask(plan: &Plan, left: u64, freeable: u32) -> Option<u32>
    ensures { result ≡ ask_of plan.now.batch left freeable }
{
    if left >= plan.batch as u64 || left >= freeable as u64 {
        Some((plan.batch as u64).min(left) as u32)
    } else {
        None
    }
}

/// The number of objects that is deferred to a later pass, at most twice the count.
///
/// Linux: `next_deferred` of `do_shrink_slab` in mm/shrinker.c.
pub fn next_deferred(nr: u64, delta: u64, scanned: u64, freeable: u32) -> u64
    ensures { result ≡ next_of nr delta scanned freeable }
{
    let left = if scanned >= delta {
        nr.saturating_sub(scanned - delta)
    } else {
        nr.saturating_add(delta - scanned)
    };
    left.min(2 * freeable as u64)
}
