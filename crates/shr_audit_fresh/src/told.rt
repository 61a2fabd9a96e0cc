// SPDX-License-Identifier: GPL-2.0-only
//! What an answer and a walk say of the journals of registrations and of the tree.

ghost use Rattle.std.specs.Prelude.{◌≡◌, option_copied, option_map, option_to_list};
ghost use Rattle.shr_base.specs.declared.replies.Answered.{Answered};
ghost use Rattle.shr_base.specs.declared.replies.Found.{Found};
ghost use Rattle.shr_laws.specs.Freshness.{of_answer, pool_made, pool_told, tree_cited, tree_seen, tree_told, walk_cited};
ghost use Rattle.shr_laws.specs.Parts.{serial_of, walks_of};

use shr_audit_replies::numbers::answer_of;
use shr_base::replies::{Answered, Reply};
use shr_base::walks::{WalkAnswer, WalkRecord};
use shr_laws::report::Report;

/// How many entries of the journal of registrations its found cache tells of.
pub(crate) fn pool_found(answer: &Answered) -> Option<u32>
    ensures { result ≡ option_map (λ (f : Found). f.entry) answer.now.found }
{
    match answer.found {
        Some(found) => Some(found.entry),
        None => None,
    }
}

/// How many a reply tells of.
pub(crate) fn pool_told(reply: &Reply) -> Option<u32>
    ensures { option_to_list result ≡ pool_told reply.now }
{
    match reply {
        Reply::NoCache { entry } => Some(*entry),
        Reply::AlreadyRegistered { entry } => Some(*entry),
        Reply::NoId { entry } => Some(*entry),
        _ => None,
    }
}

// The entry of that journal that a reply made.
fn pool_made(reply: &Reply) -> Option<u32>
    ensures { option_to_list result ≡ pool_made reply.now }
{
    match reply {
        Reply::Registered { entry, .. } => Some(*entry),
        Reply::Freed { entry, .. } => Some(*entry),
        Reply::Half { entry, .. } => Some(*entry),
        _ => None,
    }
}

/// How many entries of the journal of the tree a reply tells of.
pub(crate) fn tree_told(reply: &Reply) -> Option<u32>
    ensures { option_to_list result ≡ tree_told reply.now }
{
    match reply {
        Reply::HasChildren { entry, .. } => Some(*entry),
        _ => None,
    }
}

// The entry of that journal that a reply cites.
fn tree_cited(reply: &Reply) -> Option<u32>
    ensures { option_to_list result ≡ tree_cited reply.now }
{
    match reply {
        Reply::Offline { entry } => Some(*entry),
        Reply::AlreadyDone { entry } => Some(*entry),
        Reply::OfflineDone { entry, .. } => Some(*entry),
        Reply::Made { entry } => Some(*entry),
        Reply::AlreadyMade { entry } => Some(*entry),
        _ => None,
    }
}

/// The entry of that journal that a walk cites.
pub(crate) fn walk_cited(answer: &WalkAnswer) -> Option<u32>
    ensures { option_to_list result ≡ walk_cited answer.now }
{
    match answer {
        WalkAnswer::Offline { entry } => Some(*entry),
        _ => None,
    }
}

/// The entry of the journal of registrations that the answer with this number made.
pub(crate) fn made_by(report: &Report, worker: usize, number: usize) -> Option<u32>
    ensures { option_to_list result ≡ of_answer report.now (serial_of worker number)
        (λ (a : Answered). pool_made a.reply) }
{
    match answer_of(report, worker, number) {
        Some(answer) => pool_made(&answer.reply),
        None => None,
    }
}

/// The entry of the journal of the tree that it cites.
pub(crate) fn cited_by(report: &Report, worker: usize, number: usize) -> Option<u32>
    ensures { option_to_list result ≡ of_answer report.now (serial_of worker number)
        (λ (a : Answered). tree_cited a.reply) }
{
    match answer_of(report, worker, number) {
        Some(answer) => tree_cited(&answer.reply),
        None => None,
    }
}

/// How many entries of the journal of the tree it tells of.
pub(crate) fn tree_seen(report: &Report, worker: usize, number: usize) -> Option<u32>
    ensures { option_to_list result ≡ of_answer report.now (serial_of worker number) tree_seen }
{
    match answer_of(report, worker, number) {
        Some(answer) => tree_told(&answer.reply),
        None => None,
    }
}

/// The walks of a worker, none past the last part.
pub(crate) fn walks_of(report: &Report, worker: usize) -> &[WalkRecord]
    ensures { result.now ≡ walks_of report.now worker }
{
    match report.workers.get(worker) {
        Some(part) => part.walks.as_slice(),
        None => &[],
    }
}
