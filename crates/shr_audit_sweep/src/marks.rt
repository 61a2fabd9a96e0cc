// SPDX-License-Identifier: GPL-2.0-only
//! Which groups a sweep walked on which nodes.

ghost use Rattle.std.specs.Prelude.{◌≡◌, ℕ, ◌+◌, ◌<◌, ◌*◌, ◌≤◌, ◌++◌, List, [], true, false, get_or, length, slice_set, IfOk, IsTrue};
ghost use Rattle.std.specs.Bool.{Decides};
ghost use Rattle.shr_base.specs.Walks.{WalkRecord};
ghost use Rattle.shr_audit_formed.specs.Each.{EachItem};
ghost use Rattle.shr_laws.specs.Parts.{parents_of};
ghost use Rattle.shr_laws.specs.Swept.{all_sweep_walks, sweep_walks};
ghost use Rattle.shr_laws.specs.WellFormed.{IsWellFormed};
ghost use Rattle.shr_audit_sweep.specs.Marks.{AreMarked, AreWalkedOnce, AreSweptOnce, IsGroupMarked, IsSweptWithin, job_index};

use crate::walks::sweep_walks;
use shr_base::memory::Memory;
use shr_base::scripts::Script;
use shr_base::walks::WalkRecord;
use shr_laws::report::Report;
use std::alloc::Global;

// So many marks, none of which is set.
fn blank(alloc: Global, size: usize) -> Result<Vec<bool>, Memory>
    ensures { IfOk result (λ marks. (length marks.items ≡ size)
        × ((i : ℕ) → get_or marks.items i false ≡ false)) }
{
    let mut marks = Vec::new(alloc);
    for _ in 0..size {
        marks.push(false)?;
    }
    Ok(marks)
}

// The mark of a group on a node.
fn job_index(nodes: u8, group: usize, node: u8) -> usize
    requires { group < 65536 }
    ensures { result ≡ job_index nodes group node }
{
    group * nodes as usize + node as usize
}

// Marks a walk. Whether it wasn't marked yet.
fn mark_walk(marks: &mut Vec<bool>, nodes: u8, walk: &WalkRecord) -> bool
    requires { job_index nodes walk.now.group walk.now.node < length marks.old.items }
    ensures fresh { Decides result
        (get_or marks.old.items (job_index nodes walk.now.group walk.now.node) false ≡ false) }
    ensures marked { marks.new.items
        ≡ slice_set marks.old.items (job_index nodes walk.now.group walk.now.node) true }
{
    let index = job_index(nodes, walk.group as usize, walk.node);
    let fresh = !marks[index];
    marks[index] = true;
    fresh
}

// Marks walks, behind others that are marked. Whether all together are of each group on each node
// once at most.
fn mark_walks(marks: &mut Vec<bool>, groups: usize, nodes: u8, walks: &[WalkRecord]) -> bool
    requires few { groups ≤ 65536 }
    requires within { EachItem (IsSweptWithin groups nodes) walks.now }
    requires size { length marks.old.items ≡ groups * nodes }
    ensures size { length marks.new.items ≡ groups * nodes }
    ensures once { (before : List WalkRecord) → AreMarked groups nodes before marks.old.items
        → Decides result (AreWalkedOnce (before ++ walks.now)) }
    ensures marked { (before : List WalkRecord) → AreMarked groups nodes before marks.old.items
        → IsTrue result → AreMarked groups nodes (before ++ walks.now) marks.new.items }
{
    for walk in walks {
        if !mark_walk(marks, nodes, walk) {
            return false;
        }
    }
    true
}

// Marks what the workers walked for the sweep. Whether no group is walked twice on a node.
fn mark_all(script: &Script, report: &Report, marks: &mut Vec<bool>) -> bool
    requires well { IsWellFormed report.now }
    requires few { length (parents_of script.now) ≤ 65536 }
    requires within { (worker : ℕ) → worker < length script.now.workers.items
        → EachItem (IsSweptWithin (length (parents_of script.now)) script.now.nodes)
        (sweep_walks script.now report.now worker) }
    requires blank { AreMarked (length (parents_of script.now)) script.now.nodes []
        marks.old.items }
    ensures once { Decides result (AreWalkedOnce (all_sweep_walks script.now report.now)) }
    ensures marked { IsTrue result → AreMarked (length (parents_of script.now)) script.now.nodes
        (all_sweep_walks script.now report.now) marks.new.items }
{
    let groups = script.groups.len() + 1;
    for worker in 0..script.workers.len() {
        if !mark_walks(
            marks,
            groups,
            script.nodes,
            sweep_walks(script, report, worker),
        ) {
            return false;
        }
    }
    true
}

// Whether a group is marked on each node.
fn is_group_marked(marks: &[bool], nodes: u8, group: usize) -> bool
    requires few { group < 65536 }
    requires within { (group + 1) * nodes ≤ length marks.now }
    ensures { Decides result (IsGroupMarked nodes group marks.now) }
{
    for node in 0..nodes {
        if !marks[job_index(nodes, group, node)] {
            return false;
        }
    }
    true
}

// Whether each group is.
fn are_marked(marks: &[bool], nodes: u8, groups: usize) -> bool
    requires few { groups ≤ 65536 }
    requires size { length marks.now ≡ groups * nodes }
    ensures { Decides result
        ((group : ℕ) → group < groups → IsGroupMarked nodes group marks.now) }
{
    for group in 0..groups {
        if !is_group_marked(marks, nodes, group) {
            return false;
        }
    }
    true
}

/// Whether no group is walked twice on a node, and if `whole`, each is walked once, where each walk
/// of the sweep is of a group and a node of the script. It keeps a byte for each group on each node.
pub(crate) fn are_walked(
    alloc: Global,
    script: &Script,
    report: &Report,
    whole: bool,
) -> Result<bool, Memory>
    requires well { IsWellFormed report.now }
    requires few { length (parents_of script.now) ≤ 65536 }
    requires within { (worker : ℕ) → worker < length script.now.workers.items
        → EachItem (IsSweptWithin (length (parents_of script.now)) script.now.nodes)
        (sweep_walks script.now report.now worker) }
    ensures { IfOk result (λ b. Decides b (AreSweptOnce script.now report.now whole)) }
{
    let groups = script.groups.len() + 1;
    let mut marks = blank(alloc, groups * script.nodes as usize)?;
    if !mark_all(script, report, &mut marks) {
        return Ok(false);
    }
    if !whole {
        return Ok(true);
    }
    let marked = are_marked(marks.as_slice(), script.nodes, groups);
    Ok(marked)
}
