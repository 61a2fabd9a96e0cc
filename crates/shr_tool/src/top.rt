// SPDX-License-Identifier: GPL-2.0-only
//! All that the program does.

ghost use Rattle.std.specs.Prelude.{◌≤◌, ◌+◌, ℕ, map, string_bytes};
ghost use Rattle.shr_gen.specs.Forms.{AreRunWords, AreAuditWords, AreGenWords, AreNoForm};
ghost use Rattle.shr_script.specs.Content.{content_of, spell, IsValid};
ghost use Rattle.shr_tool.specs.Audit.{AuditGives, IsJudging};
ghost use Rattle.shr_tool.specs.Summary.{GenGives};
ghost use Rattle.shr_tool.specs.Top.{source_seen, sink_seen, RefusalGives, RunGives, UsageGives, AnswerGives, IsComplete, IsRefusing};
ghost use Rattle.shr_tool.specs.Traced.{TracedGives, TracedAnswer};
ghost use Rattle.shr_tool.specs.Turns.{TurnsGive};

use crate::afterwards::{Afterwards, let_go};
use crate::auditing::read_and_judge;
use crate::reading::{Input, SCRIPT_LIMIT, read_all};
use crate::refusing::refusal;
use crate::status::Status;
use crate::summary::{Numbers, run_generated};
use shr_base::memory::Memory;
use shr_base::scripts::{Code, Script};
use shr_gen::form::{Form, form_of};
use shr_outside::outside::{Gate, Sink, Source};
use shr_outside::writing::write_all;
use shr_print::printing::print_on_threads;
use shr_reading::reading::read_on_threads;
use shr_run::run_and_report;
use shr_script::read::ReadError;
use std::alloc::Global;
use std::sync::Wait;
use std::thread::Threads;

// Writes the refusal of a line.
fn refuse<K: Sink>(alloc: Global, line: u32, code: Code, sink: &mut K) -> Status
    ensures refusal { RefusalGives line code
        (sink_seen K.written K.faults sink.old sink.new) result }
    ensures later { K.faults sink.old ≤ K.faults sink.new }
{
    let Ok(text) = refusal(alloc, line, code) else {
        return Status::Memory;
    };
    if write_all(sink, text.as_slice()) {
        Status::Refused
    } else {
        Status::WriteFault
    }
}

// Runs a valid script, and writes its report, both on threads.
fn serve<R: Threads + Wait + Sync, K: Sink, G: Gate + Sync>(
    rt: &R,
    alloc: Global,
    script: Script,
    sink: &mut K,
    gate: &G,
    afterwards: Afterwards,
) -> Status
    requires { IsValid (content_of script) }
    ensures answer { AnswerGives (spell (content_of script))
        (sink_seen K.written K.faults sink.old sink.new) result }
    ensures traced { TracedAnswer (spell (content_of script))
        (sink_seen K.written K.faults sink.old sink.new) result }
    ensures later { K.faults sink.old ≤ K.faults sink.new }
{
    let Ok(report) = run_and_report(rt, alloc, script, gate) else {
        return Status::Memory;
    };
    match print_on_threads(rt, alloc, &report, sink) {
        Ok(true) => {
            let_go(report, afterwards);
            Status::Done
        }
        Ok(false) => Status::WriteFault,
        Err(Memory) => Status::Memory,
    }
}

// Gives the memory of a text back but for a byte. A block that is freed tells the C library that such
// sizes come and go, and it moves lists that grow in its heap from then on; one that gets smaller doesn't.
fn cut_short(bytes: &mut Vec<u8>) {
    bytes.truncate(1);
    bytes.shrink_to(1);
}

// Answers an input that was read to its end.
fn answer<R: Threads + Wait + Sync, K: Sink, G: Gate + Sync>(
    rt: &R,
    alloc: Global,
    mut bytes: Vec<u8>,
    sink: &mut K,
    gate: &G,
    afterwards: Afterwards,
) -> Status
    ensures answer { AnswerGives bytes.items
        (sink_seen K.written K.faults sink.old sink.new) result }
    ensures traced { TracedAnswer bytes.items
        (sink_seen K.written K.faults sink.old sink.new) result }
    ensures later { K.faults sink.old ≤ K.faults sink.new }
{
    match read_on_threads(rt, alloc, bytes.as_slice()) {
        Ok(script) => {
            cut_short(&mut bytes);
            serve(rt, alloc, script, sink, gate, afterwards)
        }
        Err(ReadError::Fault { line, code }) => refuse(alloc, line, code, sink),
        Err(ReadError::Memory) => Status::Memory,
    }
}

// Reads a script to its end, and answers it.
fn read_and_answer<R: Threads + Wait + Sync, S: Source, K: Sink, G: Gate + Sync>(
    rt: &R,
    alloc: Global,
    source: &mut S,
    sink: &mut K,
    gate: &G,
    afterwards: Afterwards,
) -> Status
    ensures run { RunGives
        (source_seen S.left S.faults source.old source.new)
        (sink_seen K.written K.faults sink.old sink.new) result }
    ensures traced { TracedGives
        (source_seen S.left S.faults source.old source.new)
        (sink_seen K.written K.faults sink.old sink.new) result }
    ensures turns { S.turns source.new ≤ S.turns source.old + 4194305 }
    ensures source_later { S.faults source.old ≤ S.faults source.new }
    ensures sink_later { K.faults sink.old ≤ K.faults sink.new }
{
    match read_all(alloc, source, SCRIPT_LIMIT) {
        Input::All { bytes } => answer(rt, alloc, bytes, sink, gate, afterwards),
        Input::Failed => Status::ReadFault,
        Input::TooLong => Status::TooLong,
        Input::Memory => Status::Memory,
    }
}

/// All that the program does with the words after its name.
///
/// With the one word `run` it reads a script from the source, runs its workers on threads, and
/// writes the report to the sink. With `gen` and three numbers it makes a script by them, runs it so,
/// and writes five lines of its report; it takes nothing from the source. With the one word `audit` it
/// reads a script and the report behind it, and writes which law of a report is the first that doesn't
/// hold of the two, or that all hold; it starts no thread and calls no gate. With other words it does nothing.
///
/// Each status says what was read and written, and why it came; with words of a form want of memory
/// may come at any time. After a call that failed the same source and sink may be used for a new
/// run. `afterwards` says what becomes of the memory of a report that was written; all else is given
/// back. It waits as the workers do.
pub fn top<R: Threads + Wait + Sync, S: Source, K: Sink, G: Gate + Sync>(
    rt: &R,
    alloc: Global,
    words: &Vec<String>,
    source: &mut S,
    sink: &mut K,
    gate: &G,
    afterwards: Afterwards,
) -> Status
    // Done comes with a lawful report of the script that was read, whatever the order of the
    // workers' steps: the headline.
    ensures run { AreRunWords (map string_bytes words.now.items) → RunGives
        (source_seen S.left S.faults source.old source.new)
        (sink_seen K.written K.faults sink.old sink.new) result }
    // That report is of tables that were opened for the script, and ended after its workers.
    ensures traced { AreRunWords (map string_bytes words.now.items) → TracedGives
        (source_seen S.left S.faults source.old source.new)
        (sink_seen K.written K.faults sink.old sink.new) result }
    // So do five lines of a lawful report of the script that the numbers make.
    ensures generated { (seed workers commands : ℕ)
        → AreGenWords (map string_bytes words.now.items) seed workers commands
        → GenGives seed workers commands
        (source_seen S.left S.faults source.old source.new)
        (sink_seen K.written K.faults sink.old sink.new) result }
    // A report is judged by the script before it.
    ensures audited { AreAuditWords (map string_bytes words.now.items) → AuditGives
        (source_seen S.left S.faults source.old source.new)
        (sink_seen K.written K.faults sink.old sink.new) result }
    ensures usage { AreNoForm (map string_bytes words.now.items) → UsageGives
        (source_seen S.left S.faults source.old source.new)
        (sink_seen K.written K.faults sink.old sink.new) result }
    // A valid script is run, where nothing fails.
    ensures complete { AreRunWords (map string_bytes words.now.items) → IsComplete
        (source_seen S.left S.faults source.old source.new)
        (sink_seen K.written K.faults sink.old sink.new) result }
    // Bytes that are refused are refused, where nothing fails.
    ensures refusing { AreRunWords (map string_bytes words.now.items) → IsRefusing
        (source_seen S.left S.faults source.old source.new)
        (sink_seen K.written K.faults sink.old sink.new) result }
    // The verdict that holds is told, where nothing fails.
    ensures judged { AreAuditWords (map string_bytes words.now.items) → IsJudging
        (source_seen S.left S.faults source.old source.new)
        (sink_seen K.written K.faults sink.old sink.new) result }
    ensures turns { TurnsGive (map string_bytes words.now.items) (S.turns source.old)
        (S.turns source.new) }
    ensures source_later { S.faults source.old ≤ S.faults source.new }
    ensures sink_later { K.faults sink.old ≤ K.faults sink.new }
{
    match form_of(alloc, words.as_slice()) {
        Some(Form::Run) => read_and_answer(rt, alloc, source, sink, gate, afterwards),
        Some(
            Form::Gen {
                seed,
                workers,
                commands,
            },
        ) => {
            let numbers = Numbers {
                seed,
                workers,
                commands,
            };
            run_generated(rt, alloc, numbers, sink, gate, afterwards)
        }
        Some(Form::Audit) => read_and_judge(alloc, source, sink),
        None => Status::Usage,
    }
}
