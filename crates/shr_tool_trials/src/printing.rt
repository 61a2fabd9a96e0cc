// SPDX-License-Identifier: GPL-2.0-only
//! A report that was printed on threads is the one that was printed alone: in several turns, in one, and where it is short.

use shr_base::ends::{PlaceEnd, WorkerPart};
use shr_base::items::Items;
use shr_base::journals::{Entry, UseStep};
use shr_base::log::Log;
use shr_base::memory::Memory;
use shr_base::places::{Place, Serial};
use shr_base::replies::{Answered, Reply};
use shr_laws::report::Report;
use shr_outside::sinks::MemorySink;
use shr_print::printing::print_on_threads;
use shr_report::text::print;
use std::alloc::Global;
use std::test::Fail;
use std::thread::Threads;

// A worker with so many answers.
fn worker(alloc: Global, lines: u32) -> Result<WorkerPart, Memory> {
    let mut answers = Log::new(alloc);
    for line in 0..lines {
        answers.add(Answered {
            reply: Reply::Walked { freed: line as u64 },
            found: None,
        })?;
    }
    Ok(WorkerPart {
        answers,
        walks: Log::new(alloc),
        carries: Log::new(alloc),
        plain: Log::new(alloc),
        isolations: Log::new(alloc),
    })
}

// A list with so many entries.
fn list(alloc: Global, id: u16, lines: u32) -> Result<PlaceEnd, Memory> {
    let mut entries = Log::new(alloc);
    for line in 0..lines {
        entries.add(Entry::MovedIn {
            child: id,
            objects: line,
        })?;
    }
    Ok(PlaceEnd {
        place: Place {
            id,
            node: 0,
            group: 0,
        },
        entries,
        items: Items::new(alloc),
    })
}

// An operation of this number.
fn step(operation: u32) -> UseStep {
    UseStep {
        found: 7,
        operation,
        by: Serial {
            worker: 0,
            command: operation,
        },
        group: 1,
        up: true,
    }
}

// A report without a line in its sections.
fn empty(alloc: Global) -> Report {
    Report {
        version: 2,
        nodes: 1,
        ids: 64,
        groups: Log::new(alloc),
        caches: Log::new(alloc),
        pools: Log::new(alloc),
        pool: Log::new(alloc),
        tree: Log::new(alloc),
        workers: Log::new(alloc),
        places: Log::new(alloc),
        units: Log::new(alloc),
        maps: Log::new(alloc),
        deferred: Log::new(alloc),
        pool_deferred: Log::new(alloc),
        uses: Log::new(alloc),
        lookups: Log::new(alloc),
        added: 0,
        freed: 0,
        listed: 0,
    }
}

// A report of three workers and three lists with so many lines each, and so many operations.
fn report(alloc: Global, lines: u32, operations: u32) -> Result<Report, Memory> {
    let mut report = empty(alloc);
    for id in 0..3 {
        report.workers.add(worker(alloc, lines)?)?;
        report.places.add(list(alloc, id, lines)?)?;
    }
    for operation in 0..operations {
        report.uses.add(step(operation))?;
    }
    Ok(report)
}

fn memory(alloc: Global) -> MemorySink {
    MemorySink::new(Vec::new(alloc), 16384, Vec::new(alloc))
}

// Whether threads print a report as one alone does.
fn is_as_alone<R: Threads>(rt: &R, alloc: Global, report: &Report) -> bool {
    let mut alone = memory(alloc);
    let mut whole = memory(alloc);
    print(report, &mut alone) == Ok(true)
        && print_on_threads(rt, alloc, report, &mut whole) == Ok(true)
        && whole.bytes() == alone.bytes()
}

// Lines of each worker and list, and operations. The first is printed in several turns of 80,000 lines or more, the second
// in one, and the last by one thread.
const SIZES: [(u32, u32); 3] = [(30_000, 60_000), (1500, 4500), (2, 2)];

// The first of these reports that threads print otherwise.
fn first_unlike<R: Threads>(rt: &R, alloc: Global) -> Result<Option<usize>, Memory> {
    for (i, (lines, operations)) in SIZES.iter().enumerate() {
        let report = report(alloc, *lines, *operations)?;
        if !is_as_alone(rt, alloc, &report) {
            return Ok(Some(i));
        }
    }
    Ok(None)
}

#[test]
fn a_report_is_printed_as_alone(rt: HostRuntime) -> Result<(), Fail> {
    let unlike = first_unlike(&rt, rt.alloc())?;
    assert_eq!(rt; unlike, None);
    Ok(())
}
