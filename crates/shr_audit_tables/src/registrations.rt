// SPDX-License-Identifier: GPL-2.0-only
//! The journal of registrations: whether it is one, and what it says of each id.

ghost use Rattle.std.specs.Prelude.{◌≡◌, ℕ, ◌-◌, ◌%◌, ◌<◌, ◌≤◌, ◌^◌, [], Some, slice_get, length, vec_len, IfOk, IfSome, IfNone};
ghost use Rattle.std.specs.Bool.{Decides};
ghost use Rattle.shr_base.specs.declared.journals.PoolEntry.TheVariants.{Registered};
ghost use Rattle.shr_model.specs.Pool.{id_of, IsPoolJournal};
ghost use Rattle.shr_audit_tables.specs.declared.registrations.IdState.{IdState};
ghost use Rattle.shr_audit_tables.specs.Registrations.{AreBlankStates, AreLastReached, AreStatesOf, HasLive, IsLowestFree, MayRegister, NoneFree, with_pool_entry, state_with};

use shr_base::journals::PoolEntry;
use shr_base::memory::Memory;
use std::alloc::Global;

/// What the journal of registrations says of an id.
#[derive(Clone, Copy, Debug, PartialEq, Eq)]
pub struct IdState {
    /// How many entries it has: modulo 3, 0 is idle, 1 is live, 2 is dying.
    pub phase: u64,
    /// The declaration of its last registration, and the number of the lookup where that begins.
    pub decl: u8,
    pub from: u32,
    /// The last number that an entry of it carries.
    pub last: u32,
}

// The id that an entry speaks of.
fn id_of(entry: PoolEntry) -> u16
    ensures { result ≡ id_of entry }
{
    match entry {
        PoolEntry::Registered { id, .. } => id,
        PoolEntry::Unregistered { id, .. } => id,
        PoolEntry::Idle { id } => id,
    }
}

// The state of an id after one entry more that is of it.
fn state_with(state: IdState, entry: PoolEntry) -> IdState
    requires { state.phase < 2 ^ 64 - 1 }
    ensures { result ≡ state_with state entry }
{
    let phase = state.phase + 1;
    match entry {
        PoolEntry::Registered { decl, from, .. } => IdState {
            phase,
            decl,
            from,
            last: from,
        },
        PoolEntry::Unregistered { to, .. } => IdState {
            phase,
            decl: state.decl,
            from: state.from,
            last: to,
        },
        PoolEntry::Idle { .. } => IdState {
            phase,
            decl: state.decl,
            from: state.from,
            last: state.last,
        },
    }
}

// The states after one entry more.
fn note_entry(states: &mut Vec<IdState>, entry: PoolEntry)
    requires { (id : ℕ) (x : IdState) → slice_get states.old.items id ≡ Some x
        → x.phase < 2 ^ 64 - 1 }
    ensures { states.new.items ≡ with_pool_entry states.old.items entry }
{
    let id = id_of(entry) as usize;
    if id < states.len() {
        let state = states[id];
        states[id] = state_with(state, entry);
    }
}

// Whether an id is live with this declaration.
fn has_live(states: &[IdState], decl: u8) -> bool
    ensures { Decides result (HasLive decl states.now) }
{
    for id in 0..states.len() {
        let state = states[id];
        if state.phase % 3 == 1 && state.decl == decl {
            return true;
        }
    }
    false
}

// The lowest id that can be registered.
fn lowest_free(states: &[IdState]) -> Option<usize>
    ensures some { IfSome result (IsLowestFree states.now) }
    ensures none { IfNone result (NoneFree (length states.now) states.now) }
{
    for id in 0..states.len() {
        let state = states[id];
        if state.phase % 3 == 0 && state.phase < 65_533 {
            return Some(id);
        }
    }
    None
}

// Whether an id can be registered for a declaration from this number on.
fn may_register(states: &[IdState], decls: usize, decl: u8, id: u16, from: u32) -> bool
    ensures { Decides result (MayRegister decls states.now (Registered decl id from)) }
{
    if decl as usize >= decls {
        return false;
    }
    if has_live(states, decl) {
        return false;
    }
    let Some(free) = lowest_free(states) else {
        return false;
    };
    if free != id as usize {
        return false;
    }
    states[free].last <= from
}

// Whether an entry may follow those that left these states.
fn may_follow(states: &[IdState], decls: usize, entry: PoolEntry) -> bool
    ensures { Decides result (MayRegister decls states.now entry) }
{
    match entry {
        PoolEntry::Registered { decl, id, from } => {
            let may = may_register(states, decls, decl, id, from);
            may
        }
        PoolEntry::Unregistered { decl, id, to } => {
            if id as usize >= states.len() {
                return false;
            }
            let state = states[id as usize];
            state.phase % 3 == 1 && decl == state.decl && state.last <= to
        }
        PoolEntry::Idle { id } => {
            (id as usize) < states.len() && states[id as usize].phase % 3 == 2
        }
    }
}

// So many ids of which a journal says nothing.
fn first_states(alloc: Global, ids: u16) -> Result<Vec<IdState>, Memory>
    ensures { IfOk result (λ states. AreBlankStates ids states.items) }
{
    let mut states = Vec::new(alloc);
    for _ in 0..ids {
        states.push(IdState {
            phase: 0,
            decl: 0,
            from: 0,
            last: 0,
        })?;
    }
    Ok(states)
}

/// What a journal of registrations says of each of so many ids, or `None` if it isn't one for these
/// and for so many declarations. For each entry it goes through all ids.
pub fn replay_pool(
    alloc: Global,
    ids: u16,
    decls: usize,
    pool: &[PoolEntry],
) -> Result<Option<Vec<IdState>>, Memory>
    ensures some { IfOk result (λ found. IfSome found (λ states.
        IsPoolJournal ids decls pool.now × AreStatesOf ids pool.now states.items)) }
    ensures none { IfOk result (λ found. IfNone found (IsPoolJournal ids decls pool.now → ⊥)) }
{
    let mut states = first_states(alloc, ids)?;
    for i in 0..pool.len() {
        if !may_follow(states.as_slice(), decls, pool[i]) {
            return Ok(None);
        }
        note_entry(&mut states, pool[i]);
    }
    Ok(Some(states))
}

/// Whether the registration that an id is in began at or below the id's lookups.
pub fn are_last_reached(states: &[IdState], lookups: &[u32]) -> bool
    requires { length lookups.now ≡ length states.now }
    ensures { Decides result (AreLastReached states.now lookups.now) }
{
    for id in 0..states.len() {
        let state = states[id];
        if state.phase % 3 == 1 && state.last > lookups[id] {
            return false;
        }
    }
    true
}
