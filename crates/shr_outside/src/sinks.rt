// SPDX-License-Identifier: GPL-2.0-only
//! Sinks in memory, and the real one.

ghost use Rattle.std.specs.Prelude.{◌≡◌, ◌+◌, ◌-◌, ◌^◌, ◌<◌, min, Contains, Some, None, vec_capacity};
ghost use Rattle.shr_outside.specs.Fakes.{FailsAsTold, TakesAtMost, faults_by_give};
ghost use Rattle.shr_outside.specs.Outside.{GivesBytes};

use crate::outside::{Gave, Sink};
use std::io::Write;
use std::marker::Model;

/// Bytes in memory, taken in pieces of a greatest size. The calls of given numbers, counted from 1,
/// fail, and those for which there is no memory.
#[derive(Drop)]
pub struct MemorySink {
    bytes: Vec<u8>,
    most: usize,
    calls: usize,
    failing: Vec<usize>,
    faults: u64,
}

impl Model for MemorySink {
    ghost use Rattle.std.specs.Prelude.{vec_capacity};
    ghost use Rattle.shr_outside.specs.Fakes.{Drain};

    ghost Value = { Drain };

    ghost view = { λ s. record { written = s.bytes.items; room = vec_capacity s.bytes; most = s.most; calls = s.calls; failing = s.failing.items; faults = s.faults } };
}

impl MemorySink {
    /// A sink that appends to these bytes, and takes at most `most` of them a call, one where
    /// `most` is 0.
    pub fn new(bytes: Vec<u8>, most: usize, failing: Vec<usize>) -> MemorySink
        ensures { result ≡ record {
          written = bytes.items;
          room = vec_capacity bytes;
          most = most;
          calls = 0;
          failing = failing.items;
          faults = 0;
        } }
    {
        MemorySink {
            bytes,
            most,
            calls: 0,
            failing,
            faults: 0,
        }
    }

    /// The bytes written.
    pub fn bytes(&self) -> &[u8]
        ensures { result.now ≡ self.now.written }
    {
        self.bytes.as_slice()
    }
}

impl Sink for MemorySink {
    ghost written = { λ s. Some s.written };

    ghost faults = { λ s. s.faults };

    fn give(&mut self, piece: &[u8]) -> Gave
        ensures gives { GivesBytes (Some self.old.written) (Some self.new.written) self.old.faults
            self.new.faults piece.now result }
        ensures counted { self.new.calls ≡ min (self.old.calls + 1) (2 ^ 64 - 1) }
        ensures faults { self.new.faults ≡ faults_by_give self.old.faults result }
        ensures fails { Contains self.old.failing self.new.calls → result ≡ Gave.Failed }
        // Want of memory may fail a call too.
        ensures told { FailsAsTold self.old self.new.calls piece.now result }
        ensures pieces { TakesAtMost self.old.most result }
        ensures set { (self.new.most ≡ self.old.most) × (self.new.failing ≡ self.old.failing) }
    {
        self.calls = self.calls.saturating_add(1);
        if self.failing.contains(&self.calls) {
            self.faults = self.faults.saturating_add(1);
            return Gave::Failed;
        }
        let n = piece.len().min(self.most.max(1));
        match self.bytes.extend_from_slice(&piece[..n]) {
            Ok(()) => Gave::Gave { n },
            Err(_) => {
                self.faults = self.faults.saturating_add(1);
                Gave::Failed
            }
        }
    }
}

/// A sink that never fails: it takes every byte, and keeps and tells none.
#[derive(Clone, Copy, Debug, PartialEq, Eq)]
pub struct HonestSink {
    most: usize,
}

impl Model for HonestSink {
    ghost use Rattle.std.specs.Prelude.{ℕ};

    ghost Value = { ℕ };

    ghost view = { λ s. s.most };

    ghost inverse = { λ n. record { most = n } };
}

impl HonestSink {
    /// A sink that takes at most `most` bytes a call, one where `most` is 0.
    pub fn new(most: usize) -> HonestSink
        ensures { result ≡ most }
    {
        HonestSink { most }
    }
}

impl Sink for HonestSink {
    ghost written = { λ _. None };

    ghost faults = { λ _. 0 };

    fn give(&mut self, piece: &[u8]) -> Gave
        ensures gives { GivesBytes None None 0 0 piece.now result }
        ensures pieces { TakesAtMost self.old result }
        ensures set { self.new ≡ self.old }
    {
        Gave::Gave {
            n: piece.len().min(self.most.max(1)),
        }
    }
}

/// A writer, and how often it has failed. A writer that takes nothing of a piece that isn't empty
/// has failed. Where a writer tells no bytes, what it took is trusted.
#[derive(Drop)]
pub struct StdSink<W> {
    inner: W,
    faults: u64,
}

impl<W> Model for StdSink<W> {
    ghost use Rattle.shr_outside.specs.Fakes.{CountingSink};

    ghost Value = { CountingSink W };

    ghost view = { λ s. record { inner = s.inner; faults = s.faults } };
}

impl<W> StdSink<W> {
    /// A sink over a writer that hasn't failed yet.
    pub fn new(inner: W) -> StdSink<W>
        ensures { result ≡ record { inner = inner; faults = 0 } }
    {
        StdSink { inner, faults: 0 }
    }
}

impl<W: Write> Sink for StdSink<W> {
    ghost written = { λ s. W.contents s.inner };

    ghost faults = { λ s. s.faults };

    fn give(&mut self, piece: &[u8]) -> Gave
        ensures gives { GivesBytes (W.contents self.old.inner) (W.contents self.new.inner)
            self.old.faults self.new.faults piece.now result }
        ensures faults { self.new.faults ≡ faults_by_give self.old.faults result }
    {
        if piece.is_empty() {
            return Gave::Gave { n: 0 };
        }
        match self.inner.write(piece) {
            Ok(n) if n > 0 => Gave::Gave { n },
            _ => {
                self.faults = self.faults.saturating_add(1);
                Gave::Failed
            }
        }
    }
}
