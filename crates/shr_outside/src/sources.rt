// SPDX-License-Identifier: GPL-2.0-only
//! Sources in memory, and the real one.

ghost use Rattle.std.specs.Prelude.{◌≡◌, ◌↔◌, ◌+◌, ◌-◌, ◌^◌, ◌<◌, ◌≤◌, length, take, min, max, Contains, Some};
ghost use Rattle.shr_outside.specs.Fakes.{GivesAtMost, faults_by_take};
ghost use Rattle.shr_outside.specs.Outside.{TakesBytes};

use crate::outside::{Source, Took};
use std::io::Read;
use std::marker::Model;

/// Bytes in memory, given in pieces of a greatest size. The calls of given numbers, counted from 1,
/// fail.
#[derive(Drop)]
pub struct MemorySource {
    bytes: Vec<u8>,
    at: usize,
    most: usize,
    turns: u64,
    calls: usize,
    failing: Vec<usize>,
    faults: u64,
}

impl Model for MemorySource {
    ghost use Rattle.std.specs.Prelude.{drop, ◌≤◌, vec_len};
    ghost use Rattle.shr_outside.specs.Fakes.{Feed};

    ghost Value = { Feed };

    ghost view = { λ s. record { left = drop s.at s.bytes.items; most = s.most; turns = s.turns; calls = s.calls; failing = s.failing.items; faults = s.faults } };

    ghost invariant = { λ s. s.at ≤ vec_len s.bytes };
}

impl MemorySource {
    /// A source of these bytes that gives at most `most` of them a call, one where `most` is 0.
    pub fn new(bytes: Vec<u8>, most: usize, failing: Vec<usize>) -> MemorySource
        ensures { result ≡ record {
          left = bytes.items;
          most = most;
          turns = 0;
          calls = 0;
          failing = failing.items;
          faults = 0;
        } }
    {
        MemorySource {
            bytes,
            at: 0,
            most,
            turns: 0,
            calls: 0,
            failing,
            faults: 0,
        }
    }
}

// Copies bytes to the front of the buffer, at least one and at most this many if that is above 0.
fn fill(into: &mut [u8], from: &[u8], most: usize) -> usize
    requires room { 0 < length into.old }
    requires bytes { 0 < length from.now }
    ensures some { 0 < result }
    ensures within { result ≤ length from.now }
    ensures bound { result ≤ length into.new }
    ensures most { result ≤ max most 1 }
    ensures filled { take result into.new ≡ take result from.now }
{
    let n = from.len().min(into.len()).min(most.max(1));
    let (front, _) = into.split_at_mut(n);
    front.copy_from_slice(&from[..n]);
    n
}

impl Source for MemorySource {
    ghost left = { λ s. Some s.left };

    ghost turns = { λ s. s.turns };

    ghost faults = { λ s. s.faults };

    #[tactic(auto, using(crate::proofs::Bytes::consumed))]
    fn take(&mut self, into: &mut [u8]) -> Took
        requires { 0 < length into.old }
        ensures takes { TakesBytes (Some self.old.left) (Some self.new.left) self.old.turns
            self.new.turns self.old.faults self.new.faults into.new result }
        ensures counted { self.new.calls ≡ min (self.old.calls + 1) (2 ^ 64 - 1) }
        ensures faults { self.new.faults ≡ faults_by_take self.old.faults result }
        ensures fails { (result ≡ Took.Failed) ↔ Contains self.old.failing self.new.calls }
        ensures pieces { GivesAtMost self.old.most result }
        ensures set { (self.new.most ≡ self.old.most) × (self.new.failing ≡ self.old.failing) }
    {
        self.calls = self.calls.saturating_add(1);
        if self.failing.contains(&self.calls) {
            self.faults = self.faults.saturating_add(1);
            return Took::Failed;
        }
        let left = self.bytes.len() - self.at;
        if left == 0 {
            return Took::End;
        }
        let n = fill(into, &self.bytes[self.at..], self.most);
        self.at += n;
        self.turns = self.turns.saturating_add(1);
        Took::Got { n }
    }
}

/// Bytes in memory that never fail.
#[derive(Drop)]
pub struct HonestSource {
    bytes: Vec<u8>,
    at: usize,
    most: usize,
    turns: u64,
}

impl Model for HonestSource {
    ghost use Rattle.std.specs.Prelude.{drop, ◌≤◌, vec_len};
    ghost use Rattle.shr_outside.specs.Fakes.{Supply};

    ghost Value = { Supply };

    ghost view = { λ s. record { left = drop s.at s.bytes.items; most = s.most; turns = s.turns } };

    ghost invariant = { λ s. s.at ≤ vec_len s.bytes };
}

impl HonestSource {
    /// A source of these bytes that gives at most `most` of them a call, one where `most` is 0.
    pub fn new(bytes: Vec<u8>, most: usize) -> HonestSource
        ensures { result ≡ record { left = bytes.items; most = most; turns = 0 } }
    {
        HonestSource {
            bytes,
            at: 0,
            most,
            turns: 0,
        }
    }
}

impl Source for HonestSource {
    ghost left = { λ s. Some s.left };

    ghost turns = { λ s. s.turns };

    ghost faults = { λ _. 0 };

    #[tactic(auto, using(crate::proofs::Bytes::consumed))]
    fn take(&mut self, into: &mut [u8]) -> Took
        requires { 0 < length into.old }
        ensures takes { TakesBytes (Some self.old.left) (Some self.new.left) self.old.turns
            self.new.turns 0 0 into.new result }
        ensures pieces { GivesAtMost self.old.most result }
        ensures set { self.new.most ≡ self.old.most }
    {
        let left = self.bytes.len() - self.at;
        if left == 0 {
            return Took::End;
        }
        let n = fill(into, &self.bytes[self.at..], self.most);
        self.at += n;
        self.turns = self.turns.saturating_add(1);
        Took::Got { n }
    }
}

/// A reader, how often it has given bytes, and how often it has failed. A reader that gives no byte for a buffer that isn't empty
/// is at its end. Where a reader tells no bytes, what it gave is trusted.
#[derive(Drop)]
pub struct StdSource<R> {
    inner: R,
    turns: u64,
    faults: u64,
}

impl<R> Model for StdSource<R> {
    ghost use Rattle.shr_outside.specs.Fakes.{Reading};

    ghost Value = { Reading R };

    ghost view = { λ s. record { inner = s.inner; turns = s.turns; faults = s.faults } };
}

impl<R> StdSource<R> {
    /// A source over a reader that hasn't failed yet.
    pub fn new(inner: R) -> StdSource<R>
        ensures { result ≡ record { inner = inner; turns = 0; faults = 0 } }
    {
        StdSource {
            inner,
            turns: 0,
            faults: 0,
        }
    }
}

impl<R: Read> Source for StdSource<R> {
    ghost left = { λ s. R.remaining s.inner };

    ghost turns = { λ s. s.turns };

    ghost faults = { λ s. s.faults };

    fn take(&mut self, into: &mut [u8]) -> Took
        requires { 0 < length into.old }
        ensures takes { TakesBytes (R.remaining self.old.inner) (R.remaining self.new.inner)
            self.old.turns self.new.turns self.old.faults self.new.faults into.new result }
        ensures faults { self.new.faults ≡ faults_by_take self.old.faults result }
    {
        match self.inner.read(into) {
            Ok(0) => Took::End,
            Ok(n) => {
                self.turns = self.turns.saturating_add(1);
                Took::Got { n }
            }
            Err(_) => {
                self.faults = self.faults.saturating_add(1);
                Took::Failed
            }
        }
    }
}
