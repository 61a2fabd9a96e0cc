// SPDX-License-Identifier: GPL-2.0-only
//! Children of a group that aren't done, after so many entries of the journal of the tree.

ghost use Rattle.std.specs.Prelude.{◌≡◌, ◌<◌, ◌≤◌, ◌&&◌, ◌||◌, not, nat_lt, get_or, length, take, replicate, IfOk};
ghost use Rattle.std.specs.Bool.{Decides};
ghost use Rattle.shr_model.specs.Groups.{is_child};
ghost use Rattle.shr_model.specs.TreeJournal.{is_undone_child, undone_child};
ghost use Rattle.shr_laws.specs.Causes.{IsInTheWay};
ghost use Rattle.shr_laws.specs.Parts.{script_hierarchy};
ghost use Rattle.shr_audit_rows.specs.Moments.{AreMoments, done_in, group_made_in, moment_noted};

use crate::groups::is_later;
use shr_audit_case::serials::parents_of;
use shr_base::journals::TreeEntry;
use shr_base::memory::Memory;
use shr_base::scripts::Script;
use shr_laws::report::Report;
use std::alloc::Global;

/// How many entries of the journal of the tree stand before the one by which each group was made,
/// and before the one by which it was done; all where there is none.
#[derive(Drop)]
pub struct Moments {
    pub parents: Vec<u16>,
    pub made: Vec<usize>,
    pub done: Vec<usize>,
}

// The group that an entry makes.
fn made_in(entry: TreeEntry) -> Option<u16>
    ensures { result ≡ group_made_in entry }
{
    match entry {
        TreeEntry::Begin { .. } => None,
        TreeEntry::Done { .. } => None,
        TreeEntry::Made { group } => Some(group),
    }
}

// The group that is done with it.
fn done_in(entry: TreeEntry) -> Option<u16>
    ensures { result ≡ done_in entry }
{
    match entry {
        TreeEntry::Begin { .. } => None,
        TreeEntry::Done { group } => Some(group),
        TreeEntry::Made { .. } => None,
    }
}

// Notes the group of an entry, if it has none yet.
fn note(moments: &mut Vec<usize>, total: usize, n: usize, group: Option<u16>)
    ensures { moments.new.items ≡ moment_noted total n group moments.old.items }
{
    let Some(group) = group else {
        return;
    };
    let group = group as usize;
    if group < moments.len() && moments[group] == total {
        moments[group] = n;
    }
}

// So many entries for each of so many groups.
fn all_at(alloc: Global, count: usize, total: usize) -> Result<Vec<usize>, Memory>
    ensures { IfOk result (λ v. v.items ≡ replicate count total) }
{
    Ok(vec![in alloc; total; count]?)
}

// Whether a group is made and isn't done.
fn is_left(later: bool, made: bool, done: bool) -> bool
    ensures { result ≡ ((not later || made) && not done) }
{
    (!later || made) && !done
}

impl Moments {
    /// Those of a script's groups in a report.
    pub fn of(alloc: Global, script: &Script, report: &Report) -> Result<Moments, Memory>
        ensures { IfOk result (λ m. AreMoments script.now report.now m) }
    {
        let parents = parents_of(alloc, script)?;
        let tree = report.tree.as_slice();
        let total = tree.len();
        let mut made = all_at(alloc, parents.len(), total)?;
        let mut done = all_at(alloc, parents.len(), total)?;
        for n in 0..tree.len() {
            let entry = tree[n];
            let newly = made_in(entry);
            note(&mut made, total, n, newly);
            let ended = done_in(entry);
            note(&mut done, total, n, ended);
        }
        Ok(Moments {
            parents,
            made,
            done,
        })
    }

    // Whether a group is a child of another.
    fn is_child(&self, group: u16, child: usize) -> bool
        requires { child < length self.now.parents.items }
        ensures { result ≡ is_child self.now.parents.items group child }
    {
        let parent = self.parents[child];
        child > 0 && parent == group
    }

    // Whether its Made stands among so many entries, and its Done.
    fn is_made_before(&self, child: usize, entry: usize) -> bool
        requires { child < length self.now.made.items }
        ensures { result ≡ nat_lt (get_or self.now.made.items child 0) entry }
    {
        let made = self.made[child];
        made < entry
    }

    fn is_done_before(&self, child: usize, entry: usize) -> bool
        requires { child < length self.now.done.items }
        ensures { result ≡ nat_lt (get_or self.now.done.items child 0) entry }
    {
        let done = self.done[child];
        done < entry
    }

    // Whether it is one that is made and isn't done after so many entries.
    fn is_undone(
        &self,
        script: &Script,
        report: &Report,
        group: u16,
        child: usize,
        entry: usize,
    ) -> bool
        requires moments { AreMoments script.now report.now self.now }
        requires known { entry ≤ length report.now.tree.items }
        requires there { child < length self.now.parents.items }
        ensures { result ≡ is_undone_child (script_hierarchy script.now)
            (take entry report.now.tree.items) group child }
    {
        if !self.is_child(group, child) {
            return false;
        }
        let later = is_later(script, child);
        let made = self.is_made_before(child, entry);
        let done = self.is_done_before(child, entry);
        is_left(later, made, done)
    }

    // The lowest such child.
    fn first_undone(
        &self,
        script: &Script,
        report: &Report,
        group: u16,
        entry: usize,
    ) -> Option<usize>
        requires moments { AreMoments script.now report.now self.now }
        requires known { entry ≤ length report.now.tree.items }
        ensures { result ≡ undone_child (script_hierarchy script.now)
            (take entry report.now.tree.items) group }
    {
        for child in 0..self.parents.len() {
            if self.is_undone(script, report, group, child, entry) {
                return Some(child);
            }
        }
        None
    }

    /// Whether a child of a group is the lowest that is made and isn't done after so many entries,
    /// which are there.
    pub fn is_in_the_way(
        &self,
        script: &Script,
        report: &Report,
        group: u16,
        child: u16,
        entry: u32,
    ) -> bool
        requires { AreMoments script.now report.now self.now }
        ensures { Decides result (IsInTheWay script.now report.now group child entry) }
    {
        if entry as usize > report.tree.len() {
            return false;
        }
        match self.first_undone(script, report, group, entry as usize) {
            Some(first) => first == child as usize,
            None => false,
        }
    }
}
