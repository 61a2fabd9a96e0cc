// SPDX-License-Identifier: GPL-2.0-only
//! Numbers, endings and passes in as few bytes as they need: a run keeps each of its attempts.

ghost use Rattle.std.specs.Prelude.{◌≡◌};
ghost use Rattle.shr_base.specs.Packed.{ending_in, unmade};
ghost use Rattle.shr_base.specs.declared.walks.Ending.TheVariants.{Worn};

use crate::places::Place;
use crate::replies::Spent;
use crate::walks::{Ending, PassRecord};
use std::marker::Model;

// What the high half of a number counts.
const HALF: u64 = 1 << 32;

/// A number of 64 bits that is aligned as one of 32.
#[derive(Drop)]
pub(crate) struct Wide {
    high: u32,
    low: u32,
}

impl Model for Wide {
    ghost use Rattle.std.specs.Prelude.{ℕ, ◌+◌, ◌*◌, ◌^◌};

    ghost Value = { ℕ };

    ghost view = { λ w. w.high * 2 ^ 32 + w.low };
}

impl Wide {
    fn of(number: u64) -> Wide
        ensures { result ≡ number }
    {
        Wide {
            high: (number / HALF) as u32,
            low: (number % HALF) as u32,
        }
    }

    fn get(&self) -> u64
        ensures { result ≡ self.now }
    {
        self.high as u64 * HALF + self.low as u64
    }
}

// Which ending it is, and of which counter where one is used up.
#[derive(Clone, Copy)]
enum EndingKind {
    Through,
    Stop,
    NoRoom,
    Lookups,
    List,
    Charges,
}

/// An ending.
#[derive(Drop)]
pub(crate) struct ShortEnding {
    kind: EndingKind,
    place: Place,
    first: u32,
    second: u32,
}

impl Model for ShortEnding {
    ghost use Rattle.shr_base.specs.declared.walks.Ending.{Ending};
    ghost use Rattle.shr_base.specs.Packed.{ending_in};

    ghost Value = { Ending };

    ghost view = { λ e. ending_in e.kind e.place e.first e.second };
}

// No list.
const NOWHERE: Place = Place {
    id: 0,
    node: 0,
    group: 0,
};

fn ending(kind: EndingKind, place: Place, first: u32, second: u32) -> ShortEnding
    ensures { result ≡ ending_in kind place first second }
{
    ShortEnding {
        kind,
        place,
        first,
        second,
    }
}

// That a counter is used up.
fn worn(spent: Spent) -> ShortEnding
    ensures { result ≡ Worn spent }
{
    match spent {
        Spent::Lookups { id, seen } => {
            let place = Place { id, ..NOWHERE };
            ending(EndingKind::Lookups, place, seen, 0)
        }
        Spent::List {
            place,
            entries,
            items,
        } => ending(EndingKind::List, place, entries, items),
        Spent::Charges { charges, uncharges } => {
            ending(EndingKind::Charges, NOWHERE, charges, uncharges)
        }
    }
}

impl ShortEnding {
    fn of(from: Ending) -> ShortEnding
        ensures { result ≡ from }
    {
        match from {
            Ending::Through => ending(EndingKind::Through, NOWHERE, 0, 0),
            Ending::Stop => ending(EndingKind::Stop, NOWHERE, 0, 0),
            Ending::NoRoom => ending(EndingKind::NoRoom, NOWHERE, 0, 0),
            Ending::Worn { spent } => worn(spent),
        }
    }

    fn get(&self) -> Ending
        ensures { result ≡ self.now }
    {
        let spent = match self.kind {
            EndingKind::Through => return Ending::Through,
            EndingKind::Stop => return Ending::Stop,
            EndingKind::NoRoom => return Ending::NoRoom,
            EndingKind::Lookups => Spent::Lookups {
                id: self.place.id,
                seen: self.first,
            },
            EndingKind::List => Spent::List {
                place: self.place,
                entries: self.first,
                items: self.second,
            },
            EndingKind::Charges => Spent::Charges {
                charges: self.first,
                uncharges: self.second,
            },
        };
        Ending::Worn { spent }
    }
}

/// A pass.
#[derive(Drop)]
pub(crate) struct ShortPass {
    pub(crate) len: u32,
    pub(crate) version: u32,
    asks: u32,
    closed: u32,
    nr: Wide,
    scanned: Wide,
    freed: Wide,
    next: Wide,
    ending: ShortEnding,
}

impl Model for ShortPass {
    ghost use Rattle.shr_base.specs.declared.walks.PassRecord.{PassRecord};

    ghost Value = { PassRecord };

    ghost view = { λ p. record { len = p.len; version = p.version; nr = p.nr; asks = p.asks; closed = p.closed; scanned = p.scanned; freed = p.freed; next = p.next; ending = p.ending } };
}

impl ShortPass {
    /// A pass of this many, at this version, that did nothing.
    pub(crate) fn unmade(len: u32, version: u32) -> ShortPass
        ensures { result ≡ unmade len version }
    {
        ShortPass {
            len,
            version,
            asks: 0,
            closed: 0,
            nr: Wide::of(0),
            scanned: Wide::of(0),
            freed: Wide::of(0),
            next: Wide::of(0),
            ending: ShortEnding::of(Ending::Through),
        }
    }

    /// The same pass.
    pub(crate) fn of(pass: &PassRecord) -> ShortPass
        ensures { result ≡ pass.now }
    {
        ShortPass {
            len: pass.len,
            version: pass.version,
            asks: pass.asks,
            closed: pass.closed,
            nr: Wide::of(pass.nr),
            scanned: Wide::of(pass.scanned),
            freed: Wide::of(pass.freed),
            next: Wide::of(pass.next),
            ending: ShortEnding::of(pass.ending),
        }
    }

    /// The same pass.
    pub(crate) fn get(&self) -> PassRecord
        ensures { result ≡ self.now }
    {
        PassRecord {
            len: self.len,
            version: self.version,
            nr: self.nr.get(),
            asks: self.asks,
            closed: self.closed,
            scanned: self.scanned.get(),
            freed: self.freed.get(),
            next: self.next.get(),
            ending: self.ending.get(),
        }
    }
}
