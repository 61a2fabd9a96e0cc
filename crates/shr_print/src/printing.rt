// SPDX-License-Identifier: GPL-2.0-only
//! A report is printed on threads.

ghost use Rattle.std.specs.Prelude.{◌≡◌, ◌≤◌, ◌^◌, ◌⊎◌, IfOk, OnOk, OnErr};
ghost use Rattle.shr_outside.specs.Writing.{Writes};
ghost use Rattle.shr_laws.specs.Numbers.{HasNumbers};
ghost use Rattle.shr_report.specs.Same.{Determines};
ghost use Rattle.shr_laws.specs.WellFormed.{IsWellFormed};
ghost use Rattle.shr_laws.specs.Text.{reply_count, walk_count, text};

use crate::crew::Crew;
use crate::sections::{Between, Lists, Uses, Workers};
use crate::then::Then;
use crate::turns::print_section;
use shr_base::ends::WorkerPart;
use shr_base::memory::Memory;
use shr_laws::report::Report;
use shr_outside::outside::Sink;
use shr_outside::paper::Paper;
use shr_report::printers::Printer;
use shr_report::text::print_by;
use std::alloc::Global;
use std::thread::Threads;

// The most threads that print. Handing the bytes of all parts on is the work of one, so more would
// gain little.
const MOST: usize = 4;

// About the fewest lines of a turn where there are several, which bounds what is in memory at once: a
// report of less than twice as many lines is printed in one.
const TURN: usize = 80000;

impl<R: Threads> Printer for Crew<R> {
    fn body<K: Sink>(&self, out: &mut Paper<K>, report: &Report) {
        let body = Then {
            first: Workers {
                parts: report.workers.as_slice(),
            },
            second: Then {
                first: Lists {
                    ends: report.places.as_slice(),
                },
                second: Then {
                    first: Between { report },
                    second: Uses {
                        steps: report.uses.as_slice(),
                    },
                },
            },
        };
        print_section(self, &body, out)
    }
}

// How many workers have an answer.
fn busy_workers(parts: &[WorkerPart]) -> usize {
    parts.iter().filter(|part| part.answers.len() > 0).count()
}

// The same, in turns of about so many lines where there are several.
pub(crate) fn print_in_turns<R: Threads, K: Sink>(
    rt: &R,
    alloc: Global,
    report: &Report,
    sink: &mut K,
    turn: usize,
) -> Result<bool, Memory>
    ensures written { IfOk result (λ done. Writes (K.written sink.old) (K.written sink.new)
        (K.faults sink.old) (K.faults sink.new) (text report.now) done) }
    ensures later { K.faults sink.old ≤ K.faults sink.new }
    ensures kept { OnErr result (sink.new ≡ sink.old) }
    ensures memory { OnErr result (2 ^ 64 ≤ reply_count report.now
        ⊎ 2 ^ 64 ≤ walk_count report.now) }
    ensures determined { Determines (text report.now) report.now }
    ensures numbers { OnOk result (IsWellFormed report.now → HasNumbers report.now) }
{
    let threads = busy_workers(report.workers.as_slice()).min(MOST);
    print_by(report, sink, &Crew::new(rt, alloc, threads, turn))
}

/// Prints a report to a sink as `print` of `shr_report` does, by as many threads as there are workers
/// with an answer, and no more than four. Parts of it are in memory until they are printed; want of
/// memory leaves them to this thread, and never fails a print.
pub fn print_on_threads<R: Threads, K: Sink>(
    rt: &R,
    alloc: Global,
    report: &Report,
    sink: &mut K,
) -> Result<bool, Memory>
    ensures written { IfOk result (λ done. Writes (K.written sink.old) (K.written sink.new)
        (K.faults sink.old) (K.faults sink.new) (text report.now) done) }
    ensures later { K.faults sink.old ≤ K.faults sink.new }
    ensures kept { OnErr result (sink.new ≡ sink.old) }
    ensures memory { OnErr result (2 ^ 64 ≤ reply_count report.now
        ⊎ 2 ^ 64 ≤ walk_count report.now) }
    ensures determined { Determines (text report.now) report.now }
    ensures numbers { OnOk result (IsWellFormed report.now → HasNumbers report.now) }
{
    print_in_turns(rt, alloc, report, sink, TURN)
}
