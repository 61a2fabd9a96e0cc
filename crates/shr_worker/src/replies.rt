// SPDX-License-Identifier: GPL-2.0-only
//! What the answers of calls are as replies.

ghost use Rattle.std.specs.Prelude.{◌≡◌, ◌<◌};
ghost use Rattle.shr_worker.specs.Replies.{grab_reply, make_reply, offline_reply, register_reply, release_reply, walk_reply};

use shr_base::places::Place;
use shr_base::replies::Reply;
use shr_base::walks::WalkAnswer;
use shr_charge::answers::MakeAnswer;
use shr_offline::answers::OfflineAnswer;
use shr_plain::answers::{GrabAnswer, ReleaseAnswer};
use shr_registry::answers::RegisterAnswer;

/// What a walk answers, as a reply.
pub(crate) fn walk_reply(answer: WalkAnswer) -> Reply
    ensures { result ≡ walk_reply answer }
{
    match answer {
        WalkAnswer::Walked { freed } => Reply::Walked { freed },
        WalkAnswer::Offline { entry } => Reply::Offline { entry },
        WalkAnswer::Memory { freed } => Reply::WalkMemory { freed },
    }
}

/// What taking a group offline answers, as a reply.
pub(crate) fn offline_reply(answer: OfflineAnswer) -> Reply
    ensures { result ≡ offline_reply answer }
{
    match answer {
        OfflineAnswer::Done {
            entry,
            moved,
            deferred,
        } => Reply::OfflineDone {
            entry,
            moved,
            deferred,
        },
        OfflineAnswer::AlreadyDone { entry } => Reply::AlreadyDone { entry },
        OfflineAnswer::Root => Reply::Root,
        OfflineAnswer::NotMade { group } => Reply::NotMade { group },
        OfflineAnswer::HasChildren { child, entry } => Reply::HasChildren { child, entry },
        OfflineAnswer::Worn { spent } => Reply::Worn { spent },
        OfflineAnswer::Memory => Reply::Memory,
    }
}

/// What making a group answers, as a reply.
pub(crate) fn make_reply(answer: MakeAnswer) -> Reply
    ensures { result ≡ make_reply answer }
{
    match answer {
        MakeAnswer::AlreadyMade { entry } => Reply::AlreadyMade { entry },
        MakeAnswer::NotMade { group } => Reply::NotMade { group },
        MakeAnswer::Offline { entry } => Reply::Offline { entry },
        MakeAnswer::Memory => Reply::Memory,
        MakeAnswer::Made { entry } => Reply::Made { entry },
    }
}

/// What a registration answers, as a reply.
pub(crate) fn register_reply(answer: RegisterAnswer) -> Reply
    ensures { result ≡ register_reply answer }
{
    match answer {
        RegisterAnswer::AlreadyRegistered { entry } => Reply::AlreadyRegistered { entry },
        RegisterAnswer::NoId { entry } => Reply::NoId { entry },
        RegisterAnswer::Memory => Reply::Memory,
        RegisterAnswer::Registered { id, entry } => Reply::Registered { id, entry },
    }
}

/// What releasing units at a place answers, as a reply.
pub(crate) fn release_reply(place: Place, answer: ReleaseAnswer) -> Reply
    requires { place.id < 256 }
    ensures { result ≡ release_reply place answer }
{
    let pool = place.id as u8;
    let node = place.node;
    match answer {
        ReleaseAnswer::Full { entries, free } => Reply::Full {
            pool,
            node,
            entries,
            free,
        },
        ReleaseAnswer::Worn { spent } => Reply::Worn { spent },
        ReleaseAnswer::Memory => Reply::Memory,
        ReleaseAnswer::Released { entry } => Reply::Released { pool, node, entry },
    }
}

/// What grabbing a unit at a place answers, as a reply.
pub(crate) fn grab_reply(place: Place, answer: GrabAnswer) -> Reply
    requires { place.id < 256 }
    ensures { result ≡ grab_reply place answer }
{
    let pool = place.id as u8;
    let node = place.node;
    match answer {
        GrabAnswer::Worn { spent } => Reply::Worn { spent },
        GrabAnswer::Memory => Reply::Memory,
        GrabAnswer::Grabbed { entry } => Reply::Grabbed { pool, node, entry },
        GrabAnswer::Bare { entry } => Reply::Bare { pool, node, entry },
    }
}
