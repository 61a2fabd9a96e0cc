// SPDX-License-Identifier: GPL-2.0-only
//! Passes whose scans end as no script makes them, over a fake that counts one number and answers its scans by a plan.

ghost use Rattle.std.specs.Prelude.{◌≡◌, None};
ghost use Rattle.shr_seats.specs.Rows.{IsPlaceOf};
ghost use Rattle.shr_pass.specs.Answers.{IsCountable, FreesAtMost};

use shr_base::places::Place;
use shr_base::replies::Spent;
use shr_base::walks::Ending::Through;
use shr_base::walks::{Ending, PassRecord};
use shr_deferred::{Deferred, DeferredSeat};
use shr_pass::answers::ScanAnswer::{Closed, Freed, NoRoom, Stop, Worn};
use shr_pass::answers::{Count, PassAnswer, ScanAnswer, ScanSeen};
use shr_pass::pass::{Pressure, shrink_once};
use shr_pass::shrinker::Shrinker;
use shr_seats::rows::Sizes;
use std::alloc::Global;
use std::process::Abort;
use std::test::Fail;

// One place.
const ONE: Sizes = Sizes {
    ids: 1,
    nodes: 1,
    groups: 1,
};

// The counts and scans that were made with it.
#[derive(Drop)]
struct Notes {
    counts: Vec<Count>,
    scans: Vec<ScanSeen>,
}

// Counts `len`. Its first `good` scans free all that they are asked, and each later one is answered
// `then`.
#[derive(Drop)]
struct Fake<'a, R: Abort> {
    rt: &'a R,
    len: u32,
    good: u64,
    then: ScanAnswer,
    calls: u64,
    closes: u64,
    last: Option<ScanAnswer>,
}

impl<'a, R: Abort> Fake<'a, R> {
    fn answer(&self, asked: u32) -> ScanAnswer
        ensures { FreesAtMost asked result }
    {
        if self.good > 0 {
            return ScanAnswer::Freed { objects: asked };
        }
        match self.then {
            ScanAnswer::Freed { objects } => ScanAnswer::Freed {
                objects: objects.min(asked),
            },
            other => other,
        }
    }
}

impl<'a, R: Abort> Shrinker for Fake<'a, R> {
    type Seat = Notes;

    ghost serves = { λ _. None };

    ghost owes = { λ _ _. ⊥ };

    ghost counts = { λ _ s. s.counts.items };

    ghost scans = { λ _ s. s.scans.items };

    ghost ready = { λ x _. IsCountable x.len };

    ghost kept = { λ _ _ _. Unit {0} };

    ghost calls = { λ x. x.calls };

    ghost closes = { λ x. x.closes };

    ghost last = { λ x. x.last };

    ghost told = { λ _ _ _. Unit {0} };

    fn count(&mut self, seat: &mut Notes) -> Count {
        let count = Count::Many {
            len: self.len,
            version: 7,
        };
        seat.counts.push(count).expect(self.rt, "room for a count");
        count
    }

    fn scan(&mut self, seat: &mut Notes, asked: u32) -> ScanAnswer {
        let answer = self.answer(asked);
        self.good = self.good.saturating_sub(1);
        self.calls = self.calls.wrapping_add(1);
        match answer {
            ScanAnswer::Freed { objects } => {
                let seen = ScanSeen {
                    asked,
                    freed: objects,
                };
                seat.scans.push(seen).expect(self.rt, "room for a scan");
            }
            ScanAnswer::Closed => self.closes = self.closes.wrapping_add(1),
            _ => {}
        }
        self.last = Some(answer);
        answer
    }

    ghost kept_refl = { λ x s. tt };

    ghost kept_trans = { λ x s t u a b. tt };

    ghost ready_stays = { λ x s t a b. a };

    ghost told_stays = { λ x a s t b c. tt };
}

const HERE: Place = Place {
    id: 0,
    node: 0,
    group: 0,
};

const SPENT: Spent = Spent::Charges {
    charges: 1_048_576,
    uncharges: 0,
};

// A pass's count, deferred, priority, seeks and batch.
type Given = (u32, u64, u8, u32, u32);

// A pass, how many scans are good and what each later one answers, and what the record has of it:
// how many asks, how many of these found a closed list, how much was scanned and freed, what is
// next, and the ending.
#[derive(Clone, Copy)]
struct Row {
    of: Given,
    good: u64,
    then: ScanAnswer,
    asks: (u32, u32),
    scanned: (u64, u64),
    next: u64,
    ending: Ending,
}

// Passes over 1000 objects at priority 0 with 7 deferred, whose scans after the good ones are
// answered so: the asks and those that found a closed list, what was scanned and freed, what is
// next, and the ending.
type Broken = (u64, ScanAnswer, (u32, u32), (u64, u64), u64, Ending);

const FIVE: ScanAnswer = Freed { objects: 5 };

const ENDED: Ending = Ending::Worn { spent: SPENT };

const BROKEN: [Broken; 6] = [
    // A stop at once, and a later one.
    (0, Stop, (0, 0), (0, 0), 2000, Ending::Stop),
    (3, Stop, (3, 0), (384, 384), 1623, Ending::Stop),
    // Scans that free less count as scanned whole, and so does a closed list.
    (0, FIVE, (15, 0), (1920, 75), 87, Through),
    (2, Closed, (15, 13), (1920, 256), 87, Through),
    // Want of memory and a counter that is used up.
    (1, NoRoom, (1, 0), (128, 128), 1879, Ending::NoRoom),
    (0, Worn { spent: SPENT }, (0, 0), (0, 0), 2000, ENDED),
];

// One pass of a fresh fake. What it freed is what its scans noted.
fn pass_of<R: Abort>(rt: &R, alloc: Global, seat: &mut DeferredSeat<'_>, row: &Row) -> PassRecord
    requires place { IsPlaceOf seat.old.deferred.sizes (record { id = 0; node = 0; group = 0 }) }
    ensures table { seat.new.deferred ≡ seat.old.deferred }
{
    let (len, _nr, priority, seeks, batch) = row.of;
    assert!(rt; 1 <= len && len <= 1_048_576 && priority <= 12 && batch <= 20_000);
    let mut fake = Fake {
        rt,
        len,
        good: row.good,
        then: row.then,
        calls: 0,
        closes: 0,
        last: None,
    };
    let mut notes = Notes {
        counts: Vec::new(alloc),
        scans: Vec::new(alloc),
    };
    let pressure = Pressure {
        priority,
        seeks,
        batch,
    };
    match shrink_once(seat, &mut fake, &mut notes, HERE, pressure) {
        PassAnswer::Ran { pass } => pass,
        _ => panic!(rt; "no pass"),
    }
}

// Makes the pass of a row over a new table, and sees that the row tells of it and of the deferred
// word.
fn passes<R: Abort>(rt: &R, alloc: Global, row: Row) -> Result<(), Fail> {
    let (deferred, first) = Deferred::new(alloc, ONE)?;
    let mut seat = first.at(&deferred);
    seat.give(HERE, row.of.1);
    let pass = pass_of(rt, alloc, &mut seat, &row);
    assert_eq!(rt; (pass.len, pass.version, pass.nr), (row.of.0, 7, row.of.1));
    assert_eq!(rt; (pass.asks, pass.closed), row.asks);
    assert_eq!(rt; (pass.scanned, pass.freed), row.scanned);
    assert_eq!(rt; (pass.next, pass.ending), (row.next, row.ending));
    assert_eq!(rt; seat.take(HERE), row.next);
    Ok(())
}

#[test]
fn passes_with_another_scan(rt: HostRuntime) -> Result<(), Fail> {
    for (good, then, asks, scanned, next, ending) in BROKEN {
        passes(
            &rt,
            rt.alloc(),
            Row {
                of: (1000, 7, 0, 2, 0),
                good,
                then,
                asks,
                scanned,
                next,
                ending,
            },
        )?;
    }
    Ok(())
}
