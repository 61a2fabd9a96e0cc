// SPDX-License-Identifier: GPL-2.0-only
//! A pass over a shrinker of one's own: buffers that are kept for later use.

ghost use Rattle.std.specs.Prelude.{◌≡◌, ◌+◌, ◌<◌, ◌≤◌, vec_len, IfSome, IfNone};
ghost use Rattle.shr_arith.specs.Losing.{Loses, loses_none, loses_then};
ghost use Rattle.shr_arith.specs.Passes.{IsPass, freed_of};
ghost use Rattle.shr_callers.specs.Squeezing.{mild};

use shr_arith::passes::{Pass, Pressure, shrink};
use shr_arith::simple::Simple;

/// Buffers that are kept for later use.
#[derive(Drop)]
pub struct Spares {
    pub buffers: Vec<Vec<u8>>,
    ghost few: { vec_len buffers ≤ 1048576 },
}

impl Spares {
    /// These buffers; `None` if they are more than a pass can count.
    pub fn of(buffers: Vec<Vec<u8>>) -> Option<Spares>
        ensures all { IfSome result (λ s. s.buffers ≡ buffers) }
        ensures many { IfNone result (1048576 < vec_len buffers) }
    {
        if buffers.len() > 1048576 {
            return None;
        }
        Some(Spares { buffers })
    }
}

impl Simple for Spares {
    // A count is the number of buffers, and freeing makes it less.
    ghost counts = { λ x n. n ≡ vec_len x.buffers };

    ghost frees = { λ x n y. Loses (vec_len x.buffers) n (vec_len y.buffers) };

    fn count(&self) -> u32 {
        self.buffers.len() as u32
    }

    fn scan(&mut self, asked: u32) -> Option<u32> {
        let len = self.buffers.len();
        let freed = len.min(asked as usize);
        self.buffers.truncate(len - freed);
        Some(freed as u32)
    }

    ghost frees_none = { λ x. loses_none (vec_len x.buffers) };

    ghost frees_then = { λ x y z m n a b. loses_then (vec_len x.buffers) (vec_len y.buffers) (vec_len z.buffers) m n a b };
}

/// One mild pass over the buffers. `deferred` is what the pass before said in `next`, at first 0.
pub fn squeeze(spares: &mut Spares, deferred: u64) -> Option<Pass>
    ensures loses { vec_len spares.old.buffers ≡ freed_of result + vec_len spares.new.buffers }
    ensures pass { IfSome result (IsPass mild deferred) }
{
    let mild = Pressure {
        priority: 2,
        seeks: 2,
        batch: 0,
    };
    shrink(spares, deferred, mild)
}
