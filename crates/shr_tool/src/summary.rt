// SPDX-License-Identifier: GPL-2.0-only
//! The run of a generated script, and the five lines that are written of it.

ghost use Rattle.shr_tool.specs.Top.{sink_seen};
ghost use Rattle.std.specs.Prelude.{◌≡◌, ◌≤◌, ◌+◌, ◌++◌, IfOk, OnOk, decimal, length, sum_by};
ghost use Rattle.shr_gen.specs.Generated.{MayBeGenerated};
ghost use Rattle.shr_tool.specs.Summary.{replies_of, five_lines, SummaryGives};

use crate::afterwards::{Afterwards, let_go};
use crate::status::Status;
use itoa::Buffer;
use shr_base::ends::WorkerPart;
use shr_base::memory::Memory;
use shr_gen::generating::generate;
use shr_laws::report::Report;
use shr_outside::outside::{Gate, Sink};
use shr_outside::writing::write_all;
use shr_run::run_and_report;
use std::alloc::Global;
use std::sync::Wait;
use std::thread::Threads;

/// The numbers that a script is made by.
#[derive(Clone, Copy, Debug, PartialEq, Eq)]
pub struct Numbers {
    pub seed: u64,
    pub workers: u16,
    pub commands: u32,
}

// How many answers the parts of a report have. A number that no machine has memory for is want of
// memory.
fn count_answers(parts: &[WorkerPart]) -> Result<u64, Memory>
    ensures { IfOk result (λ n. n ≡ sum_by (λ w. length w.answers.items) parts.now) }
{
    let mut count = 0u64;
    for part in parts {
        let answers = part.answers.len() as u64;
        count = count.checked_add(answers).ok_or(Memory)?;
    }
    Ok(count)
}

// A number and the text behind it.
fn put_number(out: &mut Vec<u8>, number: u64, behind: &[u8]) -> Result<(), Memory>
    ensures { OnOk result (out.new.items ≡ out.old.items ++ decimal number ++ behind.now) }
{
    let mut buffer = Buffer::new();
    out.extend_from_slice(buffer.format(number).as_bytes())?;
    out.extend_from_slice(behind)?;
    Ok(())
}

// The five lines of a report.
fn five_lines(alloc: Global, numbers: Numbers, report: &Report) -> Result<Vec<u8>, Memory>
    requires { report.now.freed + report.now.listed ≡ report.now.added }
    ensures { IfOk result (λ text. text.items ≡ five_lines numbers.seed numbers.workers
        numbers.commands (replies_of report.now) report.now.added
        (report.now.freed + report.now.listed)) }
{
    let replies = count_answers(report.workers.as_slice())?;
    let mut text = Vec::from_slice(alloc, b"gen ")?;
    put_number(&mut text, numbers.seed, b" ")?;
    put_number(&mut text, numbers.workers as u64, b" ")?;
    put_number(&mut text, numbers.commands as u64, b"\nreplies ")?;
    put_number(&mut text, replies, b"\nadded ")?;
    put_number(&mut text, report.added, b"\nkept ")?;
    put_number(&mut text, report.freed + report.listed, b"\nend\n")?;
    Ok(text)
}

/// Makes the script of these numbers, runs it, its workers on threads, and writes five lines of its
/// report. It waits as the workers do.
pub fn run_generated<R: Threads + Wait + Sync, K: Sink, G: Gate + Sync>(
    rt: &R,
    alloc: Global,
    numbers: Numbers,
    sink: &mut K,
    gate: &G,
    afterwards: Afterwards,
) -> Status
    requires { MayBeGenerated numbers.workers numbers.commands }
    ensures written { SummaryGives numbers.seed numbers.workers numbers.commands
        (sink_seen K.written K.faults sink.old sink.new) result }
    ensures later { K.faults sink.old ≤ K.faults sink.new }
{
    let Numbers {
        seed,
        workers,
        commands,
    } = numbers;
    let Ok(script) = generate(alloc, seed, workers, commands) else {
        return Status::Memory;
    };
    let Ok(report) = run_and_report(rt, alloc, script, gate) else {
        return Status::Memory;
    };
    let Ok(text) = five_lines(alloc, numbers, &report) else {
        return Status::Memory;
    };
    if write_all(sink, text.as_slice()) {
        let_go(report, afterwards);
        Status::Done
    } else {
        Status::WriteFault
    }
}
