// SPDX-License-Identifier: GPL-2.0-only
//! Gates: an open one, one that counts, and one at which two workers meet.

use crossbeam_utils::atomic::AtomicCell;
use shr_outside::outside::Gate;

/// A gate that lets each command through.
pub(crate) struct Open;

impl Gate for Open {
    fn before(&self, _worker: u16, _command: u32) {}
}

/// A gate that counts its calls and adds up their numbers.
#[derive(Drop)]
pub(crate) struct Counting {
    calls: AtomicCell<u64>,
    numbers: AtomicCell<u64>,
}

impl Counting {
    /// No call yet.
    pub(crate) fn new() -> Counting {
        Counting {
            calls: AtomicCell::new(0),
            numbers: AtomicCell::new(0),
        }
    }

    /// How often it was called, and the sum of the numbers.
    pub(crate) fn seen(&self) -> (u64, u64) {
        (self.calls.load(), self.numbers.load())
    }
}

impl Gate for Counting {
    fn before(&self, worker: u16, command: u32) {
        self.calls.fetch_add(1);
        self.numbers
            .fetch_add(worker as u64 * 1000 + command as u64);
    }
}

// How often a worker looks for the other's flag before it gives up.
const TURNS: u32 = 100_000_000;

/// A gate at which each of two workers waits for the other, before its second command.
#[derive(Drop)]
pub(crate) struct Meeting {
    first: AtomicCell<bool>,
    second: AtomicCell<bool>,
    alone: AtomicCell<u64>,
}

impl Meeting {
    /// Neither worker has come.
    pub(crate) fn new() -> Meeting {
        Meeting {
            first: AtomicCell::new(false),
            second: AtomicCell::new(false),
            alone: AtomicCell::new(0),
        }
    }

    /// How many workers gave up.
    pub(crate) fn alone(&self) -> u64 {
        self.alone.load()
    }
}

fn meets(mine: &AtomicCell<bool>, other: &AtomicCell<bool>) -> bool {
    mine.store(true);
    for _ in 0..TURNS {
        if other.load() {
            return true;
        }
    }
    false
}

impl Gate for Meeting {
    fn before(&self, worker: u16, command: u32) {
        if command != 1 {
            return;
        }
        let met = if worker == 0 {
            meets(&self.first, &self.second)
        } else {
            meets(&self.second, &self.first)
        };
        if !met {
            self.alone.fetch_add(1);
        }
    }
}
