// SPDX-License-Identifier: GPL-2.0-only
//! Each id after so many entries of the journal of registrations.

ghost use Rattle.std.specs.Prelude.{◌≡◌, ℕ, ◌+◌, ◌<◌, ◌≤◌, ◌^◌, ◌∷◌, [], ◌++◌, List, length, take, get_or, replicate, is_some, IfOk};
ghost use Rattle.shr_base.specs.declared.journals.PoolEntry.{PoolEntry};
ghost use Rattle.shr_model.specs.Pool.{decl_after, id_of, is_live_decl, lowest_idle};
ghost use Rattle.shr_audit_rows.specs.Pooled.{AreSized, IsBlankFor, Stands, is_free_in, is_live_in};

use shr_base::journals::PoolEntry;
use shr_base::memory::Memory;
use std::alloc::Global;

/// Each id after so many entries of the journal of registrations: how many of them are of the id,
/// and the declaration of the last that registered it.
#[derive(Drop)]
pub struct Pooled {
    pub phases: Vec<u64>,
    pub decls: Vec<u8>,
    /// After how many entries that is so.
    pub next: usize,
}

// The id that an entry speaks of.
fn id_of(entry: PoolEntry) -> u16
    ensures { result ≡ id_of entry }
{
    match entry {
        PoolEntry::Registered { id, .. } => id,
        PoolEntry::Unregistered { id, .. } => id,
        PoolEntry::Idle { id } => id,
    }
}

// The declaration of an entry's id after the entry.
fn decl_after(entry: PoolEntry, before: u8) -> u8
    ensures { result ≡ decl_after (id_of entry) before entry }
{
    match entry {
        PoolEntry::Registered { decl, .. } => decl,
        PoolEntry::Unregistered { .. } => before,
        PoolEntry::Idle { .. } => before,
    }
}

// Nothing of any of so many ids.
fn zeros(alloc: Global, count: usize) -> Result<Vec<u64>, Memory>
    ensures { IfOk result (λ v. v.items ≡ replicate count 0) }
{
    Ok(vec![in alloc; 0; count]?)
}

// No declaration of any of so many.
fn no_decls(alloc: Global, count: usize) -> Result<Vec<u8>, Memory>
    ensures { IfOk result (λ v. v.items ≡ replicate count 0) }
{
    Ok(vec![in alloc; 0; count]?)
}

impl Pooled {
    // So many ids before the first entry.
    fn blank(alloc: Global, count: usize) -> Result<Pooled, Memory>
        ensures stands { IfOk result (λ p. IsBlankFor count p.phases.items p.decls.items) }
        ensures next { IfOk result (λ p. p.next ≡ 0) }
    {
        let phases = zeros(alloc, count)?;
        let decls = no_decls(alloc, count)?;
        Ok(Pooled {
            phases,
            decls,
            next: 0,
        })
    }

    /// Each id before the first entry.
    pub fn start(alloc: Global) -> Result<Pooled, Memory>
        ensures stands { IfOk result (λ p. Stands [] p.phases.items p.decls.items) }
        ensures next { IfOk result (λ p. p.next ≡ 0) }
    {
        let pooled = Pooled::blank(alloc, 65536)?;
        Ok(pooled)
    }

    // After one entry more.
    fn note(&mut self, entry: PoolEntry)
        requires sized { AreSized self.old.phases.items self.old.decls.items }
        requires room { (id : ℕ) → id < 65536 → get_or self.old.phases.items id 0 + 1 < 2 ^ 64 }
        ensures { (es : List PoolEntry) → Stands es self.old.phases.items self.old.decls.items
            → Stands (es ++ entry ∷ []) self.new.phases.items self.new.decls.items }
    {
        let id = id_of(entry) as usize;
        let decl = decl_after(entry, self.decls[id]);
        let phase = self.phases[id] + 1;
        self.decls[id] = decl;
        self.phases[id] = phase;
    }

    /// Goes on until so many entries.
    pub fn advance(&mut self, pool: &[PoolEntry], until: usize)
        requires stands { Stands (take self.old.next pool.now) self.old.phases.items
            self.old.decls.items }
        requires low { self.old.next ≤ until }
        requires there { until ≤ length pool.now }
        ensures stands { Stands (take until pool.now) self.new.phases.items self.new.decls.items }
        ensures next { self.new.next ≡ until }
    {
        for n in self.next..until {
            self.note(pool[n]);
        }
        self.next = until;
    }

    // Whether an id is live with a declaration.
    fn is_live_as(&self, id: u16, decl: u8) -> bool
        requires { AreSized self.now.phases.items self.now.decls.items }
        ensures { result ≡ is_live_in self.now.phases.items self.now.decls.items decl id }
    {
        let phase = self.phases[id as usize];
        let named = self.decls[id as usize];
        phase % 3 == 1 && named == decl
    }

    // Whether an id can be registered.
    fn is_free(&self, id: u16) -> bool
        requires { AreSized self.now.phases.items self.now.decls.items }
        ensures { result ≡ is_free_in self.now.phases.items id }
    {
        let phase = self.phases[id as usize];
        phase % 3 == 0 && phase < 65533
    }

    /// Whether one of so many ids is live with a declaration.
    pub fn is_live(&self, ids: u16, decl: u8) -> bool
        requires { AreSized self.now.phases.items self.now.decls.items }
        ensures { (es : List PoolEntry) → Stands es self.now.phases.items self.now.decls.items
            → result ≡ is_live_decl ids decl es }
    {
        for id in 0..ids {
            if self.is_live_as(id, decl) {
                return true;
            }
        }
        false
    }

    /// Whether one of so many ids can be registered.
    pub fn has_free(&self, ids: u16) -> bool
        requires { AreSized self.now.phases.items self.now.decls.items }
        ensures { (es : List PoolEntry) → Stands es self.now.phases.items self.now.decls.items
            → result ≡ is_some (lowest_idle ids es) }
    {
        for id in 0..ids {
            if self.is_free(id) {
                return true;
            }
        }
        false
    }
}
