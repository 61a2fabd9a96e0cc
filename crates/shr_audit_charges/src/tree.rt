// SPDX-License-Identifier: GPL-2.0-only
//! The journal of the tree: whether each entry may stand where it does.

ghost use Rattle.std.specs.Prelude.{◌≡◌, ℕ, ◌<◌, true, false, length, slice_index_or, vec_len, IfOk};
ghost use Rattle.std.specs.Bool.{Decides};
ghost use Rattle.shr_base.specs.declared.journals.TreeEntry.TheVariants.{Begin, Done, Made};
ghost use Rattle.shr_model.specs.Groups.{Hierarchy, is_later};
ghost use Rattle.shr_model.specs.Trees.{IsTree};
ghost use Rattle.shr_model.specs.TreeJournal.{IsTreeJournal};
ghost use Rattle.shr_audit_charges.specs.declared.tree.GroupState.{GroupState};
ghost use Rattle.shr_audit_charges.specs.Tree.{AreFirstStates, HasUndone, IsUndone, MayBeDoneNow, MayBeMadeNow, MayBeginNow, MayStandNow, entry_group, hierarchy, with_tree_entry, group_state_with};

use shr_base::journals::TreeEntry;
use shr_base::memory::Memory;
use std::alloc::Global;

/// What the journal of the tree says of a group: whether it is there, and whether it began to go
/// offline and was done.
#[derive(Clone, Copy, Debug, PartialEq, Eq)]
pub struct GroupState {
    pub made: bool,
    pub begun: bool,
    pub done: bool,
}

// The group that an entry speaks of.
fn group_of(entry: TreeEntry) -> u16
    ensures { result ≡ entry_group entry }
{
    match entry {
        TreeEntry::Begin { group } => group,
        TreeEntry::Done { group } => group,
        TreeEntry::Made { group } => group,
    }
}

// The state of a group after one entry more that is of it.
fn state_with(state: GroupState, entry: TreeEntry) -> GroupState
    ensures { result ≡ group_state_with state entry }
{
    match entry {
        TreeEntry::Begin { .. } => GroupState {
            made: state.made,
            begun: true,
            done: state.done,
        },
        TreeEntry::Done { .. } => GroupState {
            made: state.made,
            begun: state.begun,
            done: true,
        },
        TreeEntry::Made { .. } => GroupState {
            made: true,
            begun: state.begun,
            done: state.done,
        },
    }
}

// The states after one entry more.
fn note_entry(states: &mut Vec<GroupState>, entry: TreeEntry)
    ensures { states.new.items ≡ with_tree_entry states.old.items entry }
{
    let group = group_of(entry) as usize;
    if group < states.len() {
        let state = states[group];
        states[group] = state_with(state, entry);
    }
}

// Whether a group is a child that is there and isn't done.
fn is_undone(parents: &[u16], states: &[GroupState], group: u16, child: usize) -> bool
    requires child { child < length states.now }
    requires each { length states.now ≡ length parents.now }
    ensures { Decides result (IsUndone parents.now states.now group child) }
{
    let state = states[child];
    child > 0 && parents[child] == group && state.made && !state.done
}

// Whether a child of a group is there and isn't done.
fn has_undone(parents: &[u16], states: &[GroupState], group: u16) -> bool
    requires { length states.now ≡ length parents.now }
    ensures { Decides result (HasUndone parents.now states.now group) }
{
    for child in 0..states.len() {
        if is_undone(parents, states, group, child) {
            return true;
        }
    }
    false
}

// Whether a group may begin to go offline.
fn may_begin(parents: &[u16], states: &[GroupState], group: u16) -> bool
    requires { length states.now ≡ length parents.now }
    ensures { Decides result (MayBeginNow parents.now states.now group) }
{
    if group == 0 || group as usize >= states.len() {
        return false;
    }
    let state = states[group as usize];
    if !state.made || state.begun {
        return false;
    }
    !has_undone(parents, states, group)
}

// Whether a group may be done.
fn may_be_done(states: &[GroupState], group: u16) -> bool
    ensures { Decides result (MayBeDoneNow states.now group) }
{
    if group as usize >= states.len() {
        return false;
    }
    let state = states[group as usize];
    state.begun && !state.done
}

// Whether a group may be made.
fn may_be_made(parents: &[u16], later: &[bool], states: &[GroupState], group: u16) -> bool
    requires each { length states.now ≡ length parents.now }
    requires later { length later.now ≡ length parents.now }
    requires tree { IsTree parents.now }
    ensures { Decides result (MayBeMadeNow parents.now later.now states.now group) }
{
    let at = group as usize;
    if at >= states.len() || !later[at] || states[at].made {
        return false;
    }
    let parent = parents[at] as usize;
    if parent >= states.len() {
        return false;
    }
    let above = states[parent];
    above.made && !above.begun
}

// Whether an entry may follow those that left these states.
fn may_follow(parents: &[u16], later: &[bool], states: &[GroupState], entry: TreeEntry) -> bool
    requires each { length states.now ≡ length parents.now }
    requires later { length later.now ≡ length parents.now }
    requires tree { IsTree parents.now }
    ensures { Decides result (MayStandNow parents.now later.now states.now entry) }
{
    match entry {
        TreeEntry::Begin { group } => may_begin(parents, states, group),
        TreeEntry::Done { group } => may_be_done(states, group),
        TreeEntry::Made { group } => may_be_made(parents, later, states, group),
    }
}

// The states of the groups before any entry: a group is there if it isn't later.
fn first_states(alloc: Global, later: &[bool]) -> Result<Vec<GroupState>, Memory>
    ensures { IfOk result (λ states. AreFirstStates later.now states.items) }
{
    let mut states = Vec::new(alloc);
    for is_later in later {
        states.push(GroupState {
            made: !*is_later,
            begun: false,
            done: false,
        })?;
    }
    Ok(states)
}

/// Whether these entries are a journal of the tree with these parents and these groups that aren't
/// there at the start. For each entry with which a group begins to go offline, of which there is
/// one for each group, it goes through all groups.
pub fn is_tree_journal(
    alloc: Global,
    parents: &[u16],
    later: &[bool],
    entries: &[TreeEntry],
) -> Result<bool, Memory>
    requires later { length later.now ≡ length parents.now }
    requires tree { IsTree parents.now }
    ensures { IfOk result (λ b. Decides b (IsTreeJournal (hierarchy parents.now later.now)
        entries.now)) }
{
    let mut states = first_states(alloc, later)?;
    for i in 0..entries.len() {
        if !may_follow(parents, later, states.as_slice(), entries[i]) {
            return Ok(false);
        }
        note_entry(&mut states, entries[i]);
    }
    Ok(true)
}
