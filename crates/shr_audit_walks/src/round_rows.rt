// SPDX-License-Identifier: GPL-2.0-only
//! Walks over groups in a row.

ghost use Rattle.std.specs.Prelude.{◌≡◌, [], ◌∷◌, IfSome, IfNone};
ghost use Rattle.std.specs.Bool.{Decides};
ghost use Rattle.shr_model.specs.Walks.{job_of};
ghost use Rattle.shr_audit_walks.specs.RoundRows.{IsBehind, IsNotBegun, IsMadeAsDue, job_with, jobs_made, jobs_over, round_over};

use shr_base::walks::WalkRecord;

/// What a walk is told besides its group. Linux: `struct shrink_control`.
#[derive(Clone, Copy, Debug, PartialEq, Eq)]
pub struct Control {
    pub node: u8,
    pub priority: u8,
    pub nofs: bool,
}

// Whether a walk is over this group and was told so.
fn is_job(walk: &WalkRecord, group: u16, control: Control) -> bool
    ensures { Decides result (job_of walk.now ≡ job_with control group) }
{
    walk.group == group
        && walk.node == control.node
        && walk.priority == control.priority
        && walk.nofs == control.nofs
}

// The walks behind the first, if that is over this group and was told so.
fn behind_walk(
    walks: &[WalkRecord],
    group: u16,
    control: Control,
    whole: bool,
) -> Option<&[WalkRecord]>
    ensures some { IfSome result (λ rest. IsBehind whole (job_with control group ∷ [])
        (jobs_made walks.now) (jobs_made rest.now)) }
    ensures none { IfNone result
        (IsNotBegun whole (job_with control group ∷ []) (jobs_made walks.now)) }
{
    let [first, rest @ ..] = walks else {
        return if whole { None } else { Some(walks) };
    };
    if is_job(first, group, control) {
        Some(rest)
    } else {
        None
    }
}

/// The walks behind those over these groups, if the walks begin with them. Where not the `whole` of
/// them need be there, the walks may end within them.
pub fn behind_row<'a>(
    walks: &'a [WalkRecord],
    groups: &[u16],
    control: Control,
    whole: bool,
) -> Option<&'a [WalkRecord]>
    ensures some { IfSome result (λ rest. IsBehind whole (jobs_over control groups.now)
        (jobs_made walks.now) (jobs_made rest.now)) }
    ensures none { IfNone result
        (IsNotBegun whole (jobs_over control groups.now) (jobs_made walks.now)) }
{
    let mut rest = walks;
    for group in groups {
        let Some(more) = behind_walk(rest, *group, control, whole) else {
            return None;
        };
        rest = more;
    }
    Some(rest)
}

/// The same of the walks of a round, which are over these groups on each node.
pub fn behind_round<'a>(
    walks: &'a [WalkRecord],
    groups: &[u16],
    nodes: u8,
    priority: u8,
    whole: bool,
) -> Option<&'a [WalkRecord]>
    ensures some { IfSome result (λ rest. IsBehind whole (round_over nodes priority groups.now)
        (jobs_made walks.now) (jobs_made rest.now)) }
    ensures none { IfNone result
        (IsNotBegun whole (round_over nodes priority groups.now) (jobs_made walks.now)) }
{
    let mut rest = walks;
    for node in 0..nodes {
        let control = Control {
            node,
            priority,
            nofs: false,
        };
        let Some(more) = behind_row(rest, groups, control, whole) else {
            return None;
        };
        rest = more;
    }
    Some(rest)
}

/// Whether the walks are those over these groups, or the first of them where not the `whole` of them
/// need be there.
pub fn is_row_made(walks: &[WalkRecord], groups: &[u16], control: Control, whole: bool) -> bool
    ensures { Decides result (IsMadeAsDue whole (jobs_over control groups.now)
        (jobs_made walks.now)) }
{
    match behind_row(walks, groups, control, whole) {
        Some(rest) => rest.is_empty(),
        None => false,
    }
}
