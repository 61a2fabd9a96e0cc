// SPDX-License-Identifier: GPL-2.0-only
//! The calls on a list by a name each, and what each is told, as a word and numbers.

ghost use Rattle.shr_core.specs.Seats.{view_of};
ghost use Rattle.shr_trials.specs.Calm.{IsCalm, StaysCalm};

use crate::calls::{close, del, get, pin, put, walk};
use shr_base::journals::DropKind;
use shr_base::places::{At, Place};
use shr_base::replies::Spent;
use shr_base::text::Text;
use shr_core::seat::Seat;
use shr_node::answers::{NodeAnswer, NodeScan, SpliceAnswer};
use std::sync::Wait;

/// A call on a list. A scan has a budget of nine visits.
#[derive(Clone, Copy)]
pub(crate) enum Act {
    Put,
    Get,
    Del,
    Pin,
    Scan,
    Close,
}

/// A word, and of an entry its group and number; of a list that is full its group and the entries
/// and objects that it would have; of a scan what it met and freed; of a splice what it moved.
pub(crate) type Heard = (&'static str, u16, u64, u64);

// There was no such call, or no memory.
const NOTHING: Heard = ("nothing", 0, 0, 0);

const CLOSED: Heard = ("closed", 0, 0, 0);

fn entry(word: &'static str, at: At) -> Heard {
    (word, at.place.group, at.entry as u64, 0)
}

fn full(spent: Spent) -> Heard {
    match spent {
        Spent::List {
            place,
            entries,
            items,
        } => ("full", place.group, entries as u64, items as u64),
        _ => NOTHING,
    }
}

fn of_put(answer: Option<NodeAnswer<bool>>) -> Heard {
    match answer {
        Some(NodeAnswer::Told { at, told: true }) => entry("added", at),
        Some(NodeAnswer::Told { at, told: false }) => entry("exists", at),
        Some(NodeAnswer::Worn { spent }) => full(spent),
        _ => NOTHING,
    }
}

fn of_get(answer: Option<NodeAnswer<Option<Text>>>) -> Heard {
    match answer {
        Some(
            NodeAnswer::Told {
                at,
                told: Some(_value),
            },
        ) => entry("hit", at),
        Some(NodeAnswer::Told { at, told: None }) => entry("miss", at),
        Some(NodeAnswer::Worn { spent }) => full(spent),
        _ => NOTHING,
    }
}

fn word_of(kind: DropKind) -> &'static str {
    match kind {
        DropKind::Dropped => "dropped",
        DropKind::Pinned => "pinned",
        DropKind::Miss => "miss",
    }
}

fn of_del(answer: Option<NodeAnswer<DropKind>>) -> Heard {
    match answer {
        Some(NodeAnswer::Told { at, told }) => entry(word_of(told), at),
        Some(NodeAnswer::Worn { spent }) => full(spent),
        _ => NOTHING,
    }
}

fn of_pin(answer: Option<NodeAnswer<bool>>) -> Heard {
    match answer {
        Some(NodeAnswer::Told { at, told: true }) => entry("done", at),
        Some(NodeAnswer::Told { at, told: false }) => entry("miss", at),
        Some(NodeAnswer::Worn { spent }) => full(spent),
        _ => NOTHING,
    }
}

fn of_scan(answer: Option<NodeScan>) -> Heard {
    match answer {
        Some(
            NodeScan::Scanned {
                freed,
                visits,
                stopped: _,
            },
        ) => ("scanned", 0, visits as u64, freed.len() as u64),
        Some(NodeScan::Closed) => CLOSED,
        Some(NodeScan::Worn { spent }) => full(spent),
        _ => NOTHING,
    }
}

fn of_close(answer: Option<SpliceAnswer>) -> Heard {
    match answer {
        Some(SpliceAnswer::Spliced { moved }) => ("spliced", 0, moved, 0),
        Some(SpliceAnswer::Worn { spent }) => full(spent),
        _ => NOTHING,
    }
}

/// Makes the call where the seat may make it, and tells what it was told.
pub(crate) fn make<R: Wait>(
    rt: &R,
    seat: &mut Seat<'_>,
    act: Act,
    place: Place,
    key: &[u8],
) -> Heard
    requires { IsCalm (view_of seat.old) }
    ensures { StaysCalm seat.old seat.new }
{
    match act {
        Act::Put => of_put(put(rt, seat, place, key)),
        Act::Get => of_get(get(rt, seat, place, key)),
        Act::Del => of_del(del(rt, seat, place, key)),
        Act::Pin => of_pin(pin(rt, seat, place, key)),
        Act::Scan => of_scan(walk(rt, seat, place, 9)),
        Act::Close => of_close(close(rt, seat, place)),
    }
}
