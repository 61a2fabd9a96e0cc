// SPDX-License-Identifier: GPL-2.0-only
//! What a worker comes to whose charges are used up, and what a list whose journal is full keeps.

use crate::commands::{Command, Heard, ask, first_unlike};
use crate::desk::charges::wear;
use crate::desk::left::{outcome, place_of};
use crate::desk::lists::fill;
use crate::desk::opening::{open, open_short, worker_at};
use crate::desk::walks::walk;
use crate::desk::words::count;
use shr_base::journals::UseStep;
use shr_base::log::Log;
use shr_base::places::Target;
use shr_base::replies::{IsolateEnd, Reply, Spent};
use shr_base::walks::{Ending, Isolation, Outcome, PassRecord, WalkAnswer};
use shr_drop::isolating::isolate;
use shr_walk::worker::Worker;
use std::alloc::Global;
use std::mem::size_of;
use std::sync::Wait;
use std::test::Fail;

const PLAIN: &[u8] = b"shrinkers 1\nsize 1 1\ngroup /a max\ncache dentry plain 2 0 0 any on\nend\n";

// A pass over this many objects by seeks 2, which asked and was told that there was no room left.
const fn worn(len: u32, version: u32, spent: Spent) -> PassRecord {
    PassRecord {
        len,
        version,
        nr: 0,
        asks: 0,
        closed: 0,
        scanned: 0,
        freed: 0,
        next: 2 * len as u64,
        ending: Ending::Worn { spent },
    }
}

// What a walk of group 1 answered, its first outcome, and how many objects it left.
type Walked = (Option<WalkAnswer>, Option<Outcome>, u32);

// Walks group 1.
fn walked<R: Wait>(worker: &mut Worker<'_, R>) -> Walked {
    let answer = walk(worker, 1, 0, false);
    let first = outcome(&worker.seats, 0, 0);
    let left = count(worker, place_of(1)).map_or(0, |seen| seen.len);
    (answer, first, left)
}

// How many visits were made, how many objects they freed, why no other was made, and how many
// records there are then.
type Told = (u32, u32, IsolateEnd, usize);

// An isolation of group 1's list, of five objects at the most. None is another answer.
fn isolated<R: Wait>(worker: &mut Worker<'_, R>) -> Option<Told> {
    let alloc = worker.shared.core.alloc;
    let shape = worker.shared.core.shape();
    if shape.nodes == 0 || shape.decls == 0 || shape.parents.len() < 2 {
        return None;
    }
    let mut log: Log<Isolation> = Log::new(alloc);
    let target = Target {
        group: 1,
        node: 0,
        decl: 0,
    };
    match isolate(worker, &mut log, target, 5).reply {
        Reply::Isolated {
            visits,
            freed,
            ending,
        } => Some((visits, freed, ending, log.len())),
        _ => None,
    }
}

// What a worker without charges may still do: it looks and pins, behind three adds.
const WITHOUT_CHARGES: [(Command, Heard); 4] = [
    (Command::Put, ("worn", 1_048_576)),
    (Command::Del, ("worn", 1_048_576)),
    (Command::Get, ("miss", 3)),
    (Command::Pin, ("miss", 4)),
];

// A walk and an isolation of three objects by a worker whose charges are used up, and the first command that it is
// not answered as it must be.
type Spending = (Walked, Option<Told>, Option<usize>);

fn spend<R: Wait>(worker: &mut Worker<'_, R>) -> Spending {
    fill(worker, place_of(1), 3);
    wear(worker);
    let walked = walked(worker);
    let told = isolated(worker);
    (walked, told, first_unlike(worker, 1, &WITHOUT_CHARGES))
}

fn without_charges<R: Wait>(rt: &R, alloc: Global) -> Result<Spending, Fail> {
    let (shared, first) = open(alloc, PLAIN)?;
    let mut worker = worker_at(rt, &shared, first)?;
    let spending = spend(&mut worker);
    Ok(spending)
}

#[test]
fn a_worker_without_charges_frees_and_adds_nothing(rt: HostRuntime) -> Result<(), Fail> {
    let spent = Spent::Charges {
        charges: 1_048_576,
        uncharges: 0,
    };
    let pass = worn(3, 3, spent);
    let ran = Outcome::Ran { number: 3, pass };
    let walked = (Some(WalkAnswer::Walked { freed: 0 }), Some(ran), 3);
    let told = Some((0, 0, IsolateEnd::Worn { spent }, 1));
    let spending = without_charges(&rt, rt.alloc())?;
    assert_eq!(rt; spending, (walked, told, None));
    Ok(())
}

#[test]
fn the_operations_of_a_worn_seat_take_24_bytes_each(rt: HostRuntime) -> Result<(), Fail> {
    assert!(rt; size_of::<UseStep>() <= 24);
    Ok(())
}

// An isolation and a walk of two objects of a list whose journal takes three entries: the miss of a key that isn't there
// stands behind the two puts.
fn scan_full<R: Wait>(worker: &mut Worker<'_, R>) -> (Option<Told>, Walked) {
    ask(worker, Command::Put, 1, b"k1");
    ask(worker, Command::Put, 1, b"k2");
    ask(worker, Command::Pin, 1, b"none");
    let told = isolated(worker);
    (told, walked(worker))
}

fn without_entries<R: Wait>(rt: &R, alloc: Global) -> Result<(Option<Told>, Walked), Fail> {
    let (shared, first) = open_short(alloc, PLAIN, 3)?;
    let mut worker = worker_at(rt, &shared, first)?;
    let scanned = scan_full(&mut worker);
    Ok(scanned)
}

// Why a scan is refused that would leave so many objects: a fourth entry would stand there.
const fn full(items: u32) -> Spent {
    Spent::List {
        place: place_of(1),
        entries: 4,
        items,
    }
}

#[test]
fn a_list_whose_journal_is_full_keeps_its_objects(rt: HostRuntime) -> Result<(), Fail> {
    let told = Some((0, 0, IsolateEnd::Worn { spent: full(1) }, 1));
    let pass = worn(2, 3, full(0));
    let ran = Outcome::Ran { number: 4, pass };
    let walked = (Some(WalkAnswer::Walked { freed: 0 }), Some(ran), 2);
    let scanned = without_entries(&rt, rt.alloc())?;
    assert_eq!(rt; scanned, (told, walked));
    Ok(())
}
