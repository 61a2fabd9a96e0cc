// SPDX-License-Identifier: GPL-2.0-only
//! The entry of an id before another, in the journal of registrations.

ghost use Rattle.std.specs.Prelude.{◌≡◌, ◌+◌, ◌<◌, length, replicate, IfOk, OnOk};
ghost use Rattle.shr_audit_reasons.specs.Behind.{AreBehind, HasBehinds};

use crate::cites::id_of;
use shr_base::journals::PoolEntry;
use shr_base::memory::Memory;
use std::alloc::Global;

fn zeros(alloc: Global, count: usize) -> Result<Vec<usize>, Memory>
    ensures { IfOk result (λ table. table.items ≡ replicate count 0) }
{
    Ok(vec![in alloc; 0; count]?)
}

// One entry more, the one with this number.
fn note(
    pool: &[PoolEntry],
    n: usize,
    lasts: &mut Vec<usize>,
    behinds: &mut Vec<usize>,
) -> Result<(), Memory>
    requires there { n < length pool.now }
    requires lasts { AreBehind pool.now n lasts.old.items }
    requires behinds { HasBehinds pool.now n behinds.old.items }
    ensures lasts { OnOk result (AreBehind pool.now (n + 1) lasts.new.items) }
    ensures behinds { OnOk result (HasBehinds pool.now (n + 1) behinds.new.items) }
{
    let id = id_of(pool[n]) as usize;
    let behind = lasts[id];
    behinds.push(behind)?;
    lasts[id] = n + 1;
    Ok(())
}

/// For each entry of the journal of registrations the number behind the last entry of its id before
/// it, 0 where there is none.
pub fn behinds_of(alloc: Global, pool: &[PoolEntry]) -> Result<Vec<usize>, Memory>
    ensures { IfOk result (λ table. HasBehinds pool.now (length pool.now) table.items) }
{
    let mut lasts = zeros(alloc, 65536)?;
    let mut behinds = Vec::new(alloc);
    for n in 0..pool.len() {
        note(pool, n, &mut lasts, &mut behinds)?;
    }
    Ok(behinds)
}
