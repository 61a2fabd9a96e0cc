// SPDX-License-Identifier: GPL-2.0-only
//! Where registrations began, and where ids became idle last.

ghost use Rattle.std.specs.Prelude.{◌≡◌, ◌+◌, ◌<◌, ◌≤◌, length, take, replicate, IfOk, OnOk};
ghost use Rattle.shr_model.specs.Pool.{from_after, id_of};
ghost use Rattle.shr_laws.specs.Causes.{became_idle, is_idle_entry};
ghost use Rattle.shr_audit_causes.specs.Began.{AreBegan, IsUpto, is_idle};

use shr_base::journals::PoolEntry;
use shr_base::memory::Memory;
use shr_laws::report::Report;
use std::alloc::Global;

/// For each entry of the journal of registrations the number where the last registration of its id
/// before it began; and for each id how many entries there are up to the last by which it became
/// idle, 0 where there is none.
#[derive(Drop)]
pub struct Began {
    pub froms: Vec<u32>,
    pub idles: Vec<usize>,
    // Where the last registration of each id began.
    pub lasts: Vec<u32>,
}

// The id that an entry speaks of.
fn id_of(entry: PoolEntry) -> u16
    ensures { result ≡ id_of entry }
{
    match entry {
        PoolEntry::Registered { id, .. } => id,
        PoolEntry::Unregistered { id, .. } => id,
        PoolEntry::Idle { id } => id,
    }
}

// Where the last registration of its id began after an entry.
fn from_after(entry: PoolEntry, before: u32) -> u32
    ensures { result ≡ from_after (id_of entry) before entry }
{
    match entry {
        PoolEntry::Registered { from, .. } => from,
        PoolEntry::Unregistered { .. } => before,
        PoolEntry::Idle { .. } => before,
    }
}

// Whether an id became idle with an entry.
fn is_idle(entry: PoolEntry) -> bool
    ensures { result ≡ is_idle entry }
{
    match entry {
        PoolEntry::Registered { .. } => false,
        PoolEntry::Unregistered { .. } => false,
        PoolEntry::Idle { .. } => true,
    }
}

fn zeros(alloc: Global, count: usize) -> Result<Vec<u32>, Memory>
    ensures { IfOk result (λ v. v.items ≡ replicate count 0) }
{
    Ok(vec![in alloc; 0; count]?)
}

fn no_idles(alloc: Global, count: usize) -> Result<Vec<usize>, Memory>
    ensures { IfOk result (λ v. v.items ≡ replicate count 0) }
{
    Ok(vec![in alloc; 0; count]?)
}

impl Began {
    // So many ids before the first entry.
    fn start(alloc: Global, report: &Report, count: usize) -> Result<Began, Memory>
        requires { count ≡ 65536 }
        ensures { IfOk result (λ b. IsUpto report.now.pool.items 0 b) }
    {
        let froms = Vec::new(alloc);
        let idles = no_idles(alloc, count)?;
        let lasts = zeros(alloc, count)?;
        Ok(Began {
            froms,
            idles,
            lasts,
        })
    }

    // One entry more, the one with this number.
    fn note(&mut self, report: &Report, n: usize) -> Result<(), Memory>
        requires upto { IsUpto report.now.pool.items n self.old }
        requires there { n < length report.now.pool.items }
        ensures { OnOk result (IsUpto report.now.pool.items (n + 1) self.new) }
    {
        let pool = report.pool.as_slice();
        let entry = pool[n];
        let id = id_of(entry) as usize;
        let from = self.lasts[id];
        self.froms.push(from)?;
        let after = from_after(entry, from);
        self.lasts[id] = after;
        if is_idle(entry) {
            self.idles[id] = n + 1;
        }
        Ok(())
    }

    /// Those of a report.
    pub fn of(alloc: Global, report: &Report) -> Result<Began, Memory>
        ensures { IfOk result (λ b. AreBegan report.now b) }
    {
        let mut began = Began::start(alloc, report, 65536)?;
        for n in 0..report.pool.len() {
            began.note(report, n)?;
        }
        Ok(began)
    }

    /// Whether an id became idle behind an entry.
    pub fn became_idle(&self, report: &Report, id: u16, entry: u32) -> bool
        requires { AreBegan report.now self.now }
        ensures { result ≡ became_idle report.now id entry }
    {
        (entry as usize) + 1 < self.idles[id as usize]
    }
}
