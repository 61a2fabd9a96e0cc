// SPDX-License-Identifier: GPL-2.0-only
//! The table at the start.

ghost use Rattle.std.specs.Prelude.{◌≡◌, ◌<◌, replicate, IfOk};
ghost use Rattle.shr_deferred.specs.Rule.{first_view};
ghost use Rattle.shr_deferred.specs.Seat.{IsFirstDeferredOf, first_deferred};

use crate::table::{Deferred, FirstDeferredSeat};
use atomic_table::Table;
use shr_base::memory::Memory;
use shr_seats::rows::Sizes;
use std::alloc::Global;

fn zeros(alloc: Global, count: usize) -> Result<Vec<u64>, Memory>
    ensures { IfOk result (λ v. v.items ≡ replicate count 0) }
{
    Ok(vec![in alloc; 0; count]?)
}

impl Deferred {
    /// A table of these sizes with nothing deferred anywhere, and its first seat. On `Memory` nothing
    /// is kept.
    ///
    /// Linux: `alloc_shrinker_info` in mm/shrinker.c for each group.
    pub fn new(alloc: Global, sizes: Sizes) -> Result<(Deferred, FirstDeferredSeat), Memory>
        requires { (0 < sizes.ids) × (0 < sizes.nodes) × (0 < sizes.groups) }
        ensures sizes { IfOk result (λ t. t.0.sizes ≡ sizes) }
        ensures first { IfOk result (λ t. IsFirstDeferredOf t.0 t.1) }
        ensures view { IfOk result (λ t. first_deferred t.1 ≡ first_view) }
    {
        let words = zeros(alloc, sizes.rows())?;
        let (table, token) = Table::of_words(alloc, &words, &sizes)?;
        Ok((Deferred { table, sizes }, FirstDeferredSeat { token }))
    }
}
