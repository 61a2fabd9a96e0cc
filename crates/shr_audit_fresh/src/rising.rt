// SPDX-License-Identifier: GPL-2.0-only
//! Along a worker's answers the numbers of entries that they speak of never fall.

ghost use Rattle.std.specs.Prelude.{◌≡◌, ◌++◌, flat_map, option_map, option_to_list};
ghost use Rattle.std.specs.Bool.{Decides};
ghost use Rattle.shr_base.specs.declared.replies.Answered.{Answered};
ghost use Rattle.shr_laws.specs.Freshness.{pool_seen, tree_seen};
ghost use Rattle.shr_laws.specs.WellFormed.{AreNotFalling};
ghost use Rattle.shr_audit_fresh.specs.Rising.{After};

use crate::told::{pool_found, pool_told, tree_told};
use shr_base::replies::Answered;

// The number from which on others mustn't fall, if this one doesn't.
fn after(low: u32, seen: Option<u32>) -> Option<u32>
    ensures { After low (option_to_list seen) result }
{
    match seen {
        Some(n) => { if n < low { None } else { Some(n) } }
        None => Some(low),
    }
}

// The same behind what an answer says of the journal of registrations.
fn after_pool(low: u32, answer: &Answered) -> Option<u32>
    ensures { After low (pool_seen answer.now) result }
{
    match after(low, pool_found(answer)) {
        Some(found) => {
            let last = after(found, pool_told(&answer.reply));
            last
        }
        None => None,
    }
}

// And behind what it says of the journal of the tree.
fn after_tree(low: u32, answer: &Answered) -> Option<u32>
    ensures { After low (tree_seen answer.now) result }
{
    after(low, tree_told(&answer.reply))
}

/// Whether what these answers say of the journal of registrations never falls.
pub(crate) fn is_pool_rising(answers: &[Answered]) -> bool
    ensures { Decides result (AreNotFalling (flat_map pool_seen answers.now)) }
{
    let mut low = 0;
    for answer in answers {
        let Some(last) = after_pool(low, answer) else {
            return false;
        };
        low = last;
    }
    true
}

/// Whether what they say of the journal of the tree never falls.
pub(crate) fn is_tree_rising(answers: &[Answered]) -> bool
    ensures { Decides result (AreNotFalling (flat_map tree_seen answers.now)) }
{
    let mut low = 0;
    for answer in answers {
        let Some(last) = after_tree(low, answer) else {
            return false;
        };
        low = last;
    }
    true
}
