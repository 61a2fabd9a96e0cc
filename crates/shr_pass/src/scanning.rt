// SPDX-License-Identifier: GPL-2.0-only
//! The scans of one pass.

ghost use Rattle.std.specs.Prelude.{◌≡◌, ◌+◌, ◌*◌, ◌<◌, ◌≤◌, Some};
ghost use Rattle.shr_model.specs.Pass.{due, due_asks, ask_size, MadeOf};
ghost use Rattle.shr_pass.specs.Answers.{IsCountable};
ghost use Rattle.shr_pass.specs.Meanings.{SameMeaning, CountsTo};
ghost use Rattle.shr_pass.specs.Passes.{Scans, EndedBy, ending_calls};

use crate::answers::ScanAnswer;
use crate::shrinker::Shrinker;
use shr_arith::formulas::next_ask;
use shr_arith::plans::Plan;
use shr_base::walks::Ending;

/// What the scans of a pass did together.
///
/// Linux: `scanned` and `freed` of `do_shrink_slab` in mm/shrinker.c.
#[derive(Clone, Copy)]
pub(crate) struct Tally {
    pub(crate) asks: u32,
    pub(crate) closed: u32,
    pub(crate) scanned: u64,
    pub(crate) freed: u64,
    pub(crate) ending: Ending,
}

/// Scans until all that is due was asked, or an answer ends it. All that was asked counts as
/// scanned.
///
/// Linux: the `while` of `do_shrink_slab` in mm/shrinker.c. There what was scanned is `nr_scanned`,
/// which `scan_objects` may set to another number than was asked.
pub(crate) fn scan_due<S: Shrinker>(
    shrinker: &mut S,
    seat: &mut S::Seat,
    plan: &Plan,
    len: u32,
) -> Tally
    requires ready { S.ready shrinker.old seat.old }
    requires plan { (0 < plan.now.batch) × (plan.now.total ≤ 2 * len) }
    requires len { IsCountable len }
    ensures made { MadeOf result.asks result.ending (due plan.now.batch len plan.now.total) }
    ensures scanned { result.scanned ≡ result.asks * ask_size plan.now.batch len plan.now.total }
    ensures bounded { result.freed ≤ result.scanned }
    ensures few { result.freed ≤ 2 * len }
    ensures counts { S.counts shrinker.new seat.new ≡ S.counts shrinker.old seat.old }
    ensures scans { Scans (λ a. S.told shrinker.old a seat.new) (S.scans shrinker.old seat.old)
        (S.scans shrinker.new seat.new) (due_asks plan.now.batch len plan.now.total) result.asks
        result.closed result.freed }
    ensures calls { CountsTo (S.calls shrinker.new) (S.calls shrinker.old + result.asks
        + ending_calls result.ending) }
    ensures closes { CountsTo (S.closes shrinker.new) (S.closes shrinker.old + result.closed) }
    ensures ending { EndedBy result.ending (λ a. (S.last shrinker.new ≡ Some a)
        × S.told shrinker.old a seat.new) }
    ensures same { SameMeaning (S.serves shrinker.old) (S.serves shrinker.new)
        (S.owes shrinker.old) (S.owes shrinker.new) (S.ready shrinker.old) (S.ready shrinker.new)
        (S.kept shrinker.old) (S.kept shrinker.new) (S.told shrinker.old) (S.told shrinker.new)
        (S.counts shrinker.old) (S.counts shrinker.new) (S.scans shrinker.old)
        (S.scans shrinker.new) }
    ensures kept { S.kept shrinker.old seat.old seat.new }
{
    let mut left = plan.total;
    let mut tally = Tally {
        asks: 0,
        closed: 0,
        scanned: 0,
        freed: 0,
        ending: Ending::Through,
    };
    'scanning: while let Some(asked) = next_ask(plan, left, len) {
        match shrinker.scan(seat, asked) {
            ScanAnswer::Freed { objects } => {
                left -= asked as u64;
                tally.asks += 1;
                tally.scanned += asked as u64;
                tally.freed += objects as u64;
            }
            ScanAnswer::Closed => {
                left -= asked as u64;
                tally.asks += 1;
                tally.scanned += asked as u64;
                tally.closed += 1;
            }
            ScanAnswer::Stop => {
                tally.ending = Ending::Stop;
                return tally;
            }
            ScanAnswer::NoRoom => {
                tally.ending = Ending::NoRoom;
                return tally;
            }
            ScanAnswer::Worn { spent } => {
                tally.ending = Ending::Worn { spent };
                return tally;
            }
        }
    }
    tally
}
