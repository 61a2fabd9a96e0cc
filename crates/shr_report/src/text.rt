// SPDX-License-Identifier: GPL-2.0-only
//! The text of a report.

ghost use Rattle.std.specs.Prelude.{◌≡◌, ◌≤◌, ◌^◌, ◌⊎◌, IfOk, OnOk, OnErr, ◌∷◌, [], sum_by, length};
ghost use Rattle.shr_outside.specs.Paper.{Prints, IsLeft};
ghost use Rattle.shr_outside.specs.Writing.{Writes};
ghost use Rattle.shr_laws.specs.Lines.{line, numbered, numeral};
ghost use Rattle.shr_laws.specs.Numbers.{HasNumbers};
ghost use Rattle.shr_report.specs.Same.{Determines};
ghost use Rattle.shr_laws.specs.WellFormed.{IsWellFormed};
ghost use Rattle.shr_laws.specs.Text.{pool_entry_line, tree_line, lookups_line, head_lines, journal_lines, end_lines, reply_count, walk_count, text};

use crate::lines::Word::{Number, Text as Bytes};
use crate::lines::{put_amount, put_line};
use crate::printers::{Alone, Printer};
use shr_base::ends::WorkerPart;
use shr_base::journals::{PoolEntry, TreeEntry};
use shr_base::memory::Memory;
use shr_base::text::Text;
use shr_laws::report::Report;
use shr_outside::outside::Sink;
use shr_outside::paper::Paper;

// Names by their numbers, each on a line that begins with this word.
fn names<K: Sink>(out: &mut Paper<K>, first: &[u8], names: &[Text])
    ensures { Prints K.written K.faults out.old out.new
        (numbered (λ n name. line first.now (numeral n ∷ name ∷ [])) 0 names.now) }
{
    for (i, name) in names.iter().enumerate() {
        put_line(out, first, &[Number(i as u64), Bytes(name.bytes())]);
    }
}

fn pool_entry<K: Sink>(out: &mut Paper<K>, number: usize, entry: &PoolEntry)
    ensures { Prints K.written K.faults out.old out.new (pool_entry_line number entry.now) }
{
    match *entry {
        PoolEntry::Registered { decl, id, from } => put_line(
            out,
            b"pool",
            &[
                Number(number as u64),
                Bytes(b"registered"),
                Number(decl as u64),
                Number(id as u64),
                Number(from as u64),
            ],
        ),
        PoolEntry::Unregistered { decl, id, to } => put_line(
            out,
            b"pool",
            &[
                Number(number as u64),
                Bytes(b"unregistered"),
                Number(decl as u64),
                Number(id as u64),
                Number(to as u64),
            ],
        ),
        PoolEntry::Idle { id } => put_line(
            out,
            b"pool",
            &[Number(number as u64), Bytes(b"idle"), Number(id as u64)],
        ),
    }
}

fn pool<K: Sink>(out: &mut Paper<K>, entries: &[PoolEntry])
    ensures { Prints K.written K.faults out.old out.new (numbered pool_entry_line 0 entries.now) }
{
    for (i, entry) in entries.iter().enumerate() {
        pool_entry(out, i, entry);
    }
}

fn tree_entry<K: Sink>(out: &mut Paper<K>, number: usize, entry: &TreeEntry)
    ensures { Prints K.written K.faults out.old out.new (tree_line number entry.now) }
{
    match *entry {
        TreeEntry::Begin { group } => put_line(
            out,
            b"tree",
            &[Number(number as u64), Bytes(b"begin"), Number(group as u64)],
        ),
        TreeEntry::Done { group } => put_line(
            out,
            b"tree",
            &[Number(number as u64), Bytes(b"done"), Number(group as u64)],
        ),
        TreeEntry::Made { group } => put_line(
            out,
            b"tree",
            &[Number(number as u64), Bytes(b"made"), Number(group as u64)],
        ),
    }
}

fn tree<K: Sink>(out: &mut Paper<K>, entries: &[TreeEntry])
    ensures { Prints K.written K.faults out.old out.new (numbered tree_line 0 entries.now) }
{
    for (i, entry) in entries.iter().enumerate() {
        tree_entry(out, i, entry);
    }
}

fn lookups<K: Sink>(out: &mut Paper<K>, numbers: &[u32])
    ensures { Prints K.written K.faults out.old out.new (numbered lookups_line 0 numbers.now) }
{
    for (id, n) in numbers.iter().enumerate() {
        put_line(out, b"lookups", &[Number(id as u64), Number(*n as u64)]);
    }
}

fn head<K: Sink>(out: &mut Paper<K>, report: &Report)
    ensures { Prints K.written K.faults out.old out.new (head_lines report.now) }
{
    put_line(out, b"report", &[Number(report.version as u64)]);
    put_line(
        out,
        b"size",
        &[Number(report.nodes as u64), Number(report.ids as u64)],
    );
    names(out, b"group", report.groups.as_slice());
    names(out, b"cache", report.caches.as_slice());
    names(out, b"pool", report.pools.as_slice());
}

fn journals<K: Sink>(out: &mut Paper<K>, report: &Report)
    ensures { Prints K.written K.faults out.old out.new (journal_lines report.now) }
{
    pool(out, report.pool.as_slice());
    tree(out, report.tree.as_slice())
}

// The number of all answers. A number that no machine has memory for is want of memory.
fn count_replies(parts: &[WorkerPart]) -> Result<u64, Memory>
    ensures count { IfOk result (λ n. n ≡ sum_by (λ w. length w.answers.items) parts.now) }
    ensures large { OnErr result (2 ^ 64 ≤ sum_by (λ w. length w.answers.items) parts.now) }
{
    let mut count = 0u64;
    for part in parts {
        count = count.checked_add(part.answers.len() as u64).ok_or(Memory)?;
    }
    Ok(count)
}

// The number of all walks, likewise.
fn count_walks(parts: &[WorkerPart]) -> Result<u64, Memory>
    ensures count { IfOk result (λ n. n ≡ sum_by (λ w. length w.walks.items) parts.now) }
    ensures large { OnErr result (2 ^ 64 ≤ sum_by (λ w. length w.walks.items) parts.now) }
{
    let mut count = 0u64;
    for part in parts {
        count = count.checked_add(part.walks.len() as u64).ok_or(Memory)?;
    }
    Ok(count)
}

// The totals, with the numbers of all answers and of all walks.
fn end<K: Sink>(out: &mut Paper<K>, report: &Report, replies: u64, walks: u64)
    requires replies { replies ≡ reply_count report.now }
    requires walks { walks ≡ walk_count report.now }
    ensures { Prints K.written K.faults out.old out.new (end_lines report.now) }
{
    put_line(
        out,
        b"total",
        &[
            Number(report.added),
            Number(report.freed),
            Number(report.listed),
            Number(replies),
            Number(walks),
        ],
    );
    put_line(out, b"end", &[])
}

// All lines of a report.
fn lines<K: Sink, P: Printer>(
    out: &mut Paper<K>,
    report: &Report,
    printer: &P,
    replies: u64,
    walks: u64,
)
    requires replies { replies ≡ reply_count report.now }
    requires walks { walks ≡ walk_count report.now }
    ensures printed { Prints K.written K.faults out.old out.new (text report.now) }
    ensures numbers { IsWellFormed report.now → HasNumbers report.now }
{
    head(out, report);
    journals(out, report);
    printer.body(out, report);
    lookups(out, report.lookups.as_slice());
    end(out, report, replies, walks)
}

// Prints a report on a paper, and hands the sink the last of it.
fn print_on<K: Sink, P: Printer>(
    out: &mut Paper<K>,
    report: &Report,
    printer: &P,
    replies: u64,
    walks: u64,
) -> bool
    requires replies { replies ≡ reply_count report.now }
    requires walks { walks ≡ walk_count report.now }
    requires left { IsLeft K.written K.faults (record {
      written = K.written out.old.sink.now;
      faults = K.faults out.old.sink.now;
      text = text report.now;
    }) (text report.now) out.old }
    ensures same { out.new.sink.ghost_name ≡ out.old.sink.ghost_name }
    ensures written { Writes (K.written out.old.sink.now) (K.written out.new.sink.now)
        (K.faults out.old.sink.now) (K.faults out.new.sink.now) (text report.now) result }
    ensures later { K.faults out.old.sink.now ≤ K.faults out.new.sink.now }
    ensures numbers { IsWellFormed report.now → HasNumbers report.now }
{
    lines(out, report, printer, replies, walks);
    out.finish()
}

/// Prints a report to a sink, its body by this printer, and tells whether the sink has got all of it, or
/// failed and has a front of it. The sink gets the text a page at a time.
///
/// `Memory` comes where a report has more answers or walks than 64 bits count, and then nothing was
/// printed. The bytes of a well formed report determine it, and its numbers have the ranges of their
/// types.
pub fn print_by<K: Sink, P: Printer>(
    report: &Report,
    sink: &mut K,
    printer: &P,
) -> Result<bool, Memory>
    ensures written { IfOk result (λ done. Writes (K.written sink.old) (K.written sink.new)
        (K.faults sink.old) (K.faults sink.new) (text report.now) done) }
    ensures later { K.faults sink.old ≤ K.faults sink.new }
    ensures kept { OnErr result (sink.new ≡ sink.old) }
    ensures memory { OnErr result (2 ^ 64 ≤ reply_count report.now
        ⊎ 2 ^ 64 ≤ walk_count report.now) }
    ensures determined { Determines (text report.now) report.now }
    ensures numbers { OnOk result (IsWellFormed report.now → HasNumbers report.now) }
{
    let replies = count_replies(report.workers.as_slice())?;
    let walks = count_walks(report.workers.as_slice())?;
    let mut out = Paper::new(sink);
    Ok(print_on(&mut out, report, printer, replies, walks))
}

/// Prints a report to a sink as `print_by` does, without threads. The text is never whole in memory.
pub fn print<K: Sink>(report: &Report, sink: &mut K) -> Result<bool, Memory>
    ensures written { IfOk result (λ done. Writes (K.written sink.old) (K.written sink.new)
        (K.faults sink.old) (K.faults sink.new) (text report.now) done) }
    ensures later { K.faults sink.old ≤ K.faults sink.new }
    ensures kept { OnErr result (sink.new ≡ sink.old) }
    ensures memory { OnErr result (2 ^ 64 ≤ reply_count report.now
        ⊎ 2 ^ 64 ≤ walk_count report.now) }
    ensures determined { Determines (text report.now) report.now }
    ensures numbers { OnOk result (IsWellFormed report.now → HasNumbers report.now) }
{
    print_by(report, sink, &Alone)
}
