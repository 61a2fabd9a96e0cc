// SPDX-License-Identifier: GPL-2.0-only
//! What a command on walks is answered, against the walks that it made.

ghost use Rattle.std.specs.Prelude.{◌≡◌, sum_by};
ghost use Rattle.std.specs.Bool.{Decides};
ghost use Rattle.std.specs.List.{list_any};
ghost use Rattle.shr_base.specs.Walks.{WalkRecord};
ghost use Rattle.shr_model.specs.Walks.{freed_told, is_cut};
ghost use Rattle.shr_laws.specs.WalksLawful.{balance_reply, reply_of, shrink_reply};

use crate::alone::{freed_told, is_cut};
use shr_base::replies::Reply;
use shr_base::walks::{WalkAnswer, WalkRecord};

// Whether a reply is that of a walk with this answer.
fn is_reply_of(answer: WalkAnswer, reply: &Reply) -> bool
    ensures { Decides result (reply.now ≡ reply_of answer) }
{
    match (answer, reply) {
        (WalkAnswer::Walked { freed }, Reply::Walked { freed: told }) => *told == freed,
        (WalkAnswer::Offline { entry }, Reply::Offline { entry: told }) => *told == entry,
        (WalkAnswer::Memory { freed }, Reply::WalkMemory { freed: told }) => *told == freed,
        _ => false,
    }
}

/// Whether a `shrink` with these walks is answered so.
pub fn is_shrink_told(walks: &[WalkRecord], reply: &Reply) -> bool
    ensures { Decides result (reply.now ≡ shrink_reply walks.now) }
{
    if walks.is_empty() {
        return matches!(reply, Reply::WalkMemory { freed: 0 });
    }
    let told = is_reply_of(walks[0].answer(), reply);
    told
}

// Whether one of these walks was cut.
fn any_cut(walks: &[WalkRecord]) -> bool
    ensures { result ≡ list_any (λ (w : WalkRecord). is_cut w.answer) walks.now }
{
    walks.iter().any(|walk| is_cut(walk.answer()))
}

// Whether these walks say that they freed so much together.
fn walks_tell(walks: &[WalkRecord], told: u64) -> bool
    ensures { Decides result (told ≡ sum_by (λ (w : WalkRecord). freed_told w.answer) walks.now) }
{
    let mut left = told;
    for walk in walks {
        let freed = freed_told(walk.answer());
        if freed > left {
            return false;
        }
        left -= freed;
    }
    left == 0
}

/// Whether a `balance` over so many groups, with these walks, is answered so.
pub fn is_balance_told(groups: usize, walks: &[WalkRecord], reply: &Reply) -> bool
    ensures { Decides result (reply.now ≡ balance_reply groups walks.now) }
{
    let whole = walks.len() == groups && !any_cut(walks);
    match reply {
        Reply::Walked { freed } => {
            let told = walks_tell(walks, *freed);
            whole && told
        }
        Reply::WalkMemory { freed } => {
            let told = walks_tell(walks, *freed);
            !whole && told
        }
        _ => false,
    }
}
