// SPDX-License-Identifier: GPL-2.0-only
//! Who prints: how many threads, by whose leave, and how much in one turn.

use std::alloc::Global;
use std::marker::PhantomData;
use std::sync::atomic::AtomicPtr;
use std::thread::Threads;

/// The leave to start threads that a handle gives. It holds nothing of the handle, so any thread may
/// have it: of the `AtomicPtr`, which any thread may have too, it has the type alone.
#[derive(Clone, Copy)]
pub(crate) struct Leave<R> {
    handle: PhantomData<AtomicPtr<R>>,
}

impl<R: Threads> Threads for Leave<R> {}

/// So many threads, that print parts of a section side by side. A long section is printed in turns: a
/// part of each thread is in memory, and they are put on the paper before the next are begun.
#[derive(Drop)]
pub(crate) struct Crew<R> {
    pub(crate) leave: Leave<R>,
    pub(crate) alloc: Global,
    pub(crate) threads: usize,
    // About the fewest lines of a turn where there are several.
    pub(crate) turn: usize,
}

impl<R: Threads> Crew<R> {
    /// So many threads, by the leave that a handle gives.
    pub(crate) fn new(_rt: &R, alloc: Global, threads: usize, turn: usize) -> Crew<R> {
        Crew {
            leave: Leave {
                handle: PhantomData,
            },
            alloc,
            threads,
            turn,
        }
    }
}
