// SPDX-License-Identifier: GPL-2.0-only
//! The parts of a section, printed by threads into memory, and put on a paper in order.

ghost use Rattle.std.specs.Prelude.{◌≡◌, ◌≤◌, ◌<◌, ◌+◌, IfOk, IfSome, [], length, vec_len};
ghost use Rattle.shr_outside.specs.Paper.{Prints, IsLeft};
ghost use Rattle.shr_outside.specs.Writing.{Writes};
ghost use Rattle.shr_print.specs.Cuts.{AreRising, AreParts, IsPart, cut_at, last_cut};

use crate::crew::Crew;
use crate::section::Section;
use shr_base::memory::Memory;
use shr_outside::outside::Sink;
use shr_outside::paper::Paper;
use shr_outside::sinks::MemorySink;
use std::alloc::Global;
use std::thread;
use std::thread::Threads;

// Prints a run of items on a paper, and hands the sink the last of it.
fn write_on<S: Section, K: Sink>(section: &S, out: &mut Paper<K>, from: usize, to: usize) -> bool
    requires within { (from ≤ to) × (to ≤ S.size section.now) }
    requires left { IsLeft K.written K.faults (record {
      written = K.written out.old.sink.now;
      faults = K.faults out.old.sink.now;
      text = S.text section.now from to;
    }) (S.text section.now from to) out.old }
    ensures same { out.new.sink.ghost_name ≡ out.old.sink.ghost_name }
    ensures written { Writes (K.written out.old.sink.now) (K.written out.new.sink.now)
        (K.faults out.old.sink.now) (K.faults out.new.sink.now) (S.text section.now from to)
        result }
    ensures known { S.known section.now from to }
{
    section.print(out, from, to);
    out.finish()
}

// Prints a run of items to a sink, and tells whether the sink has got all of it.
fn write_run<S: Section, K: Sink>(section: &S, sink: &mut K, from: usize, to: usize) -> bool
    requires { (from ≤ to) × (to ≤ S.size section.now) }
    ensures written { Writes (K.written sink.old) (K.written sink.new) (K.faults sink.old)
        (K.faults sink.new) (S.text section.now from to) result }
    ensures known { S.known section.now from to }
{
    let mut out = Paper::new(sink);
    write_on(section, &mut out, from, to)
}

// No bytes, with room for so many if there is memory for it.
fn with_room(alloc: Global, room: usize) -> Vec<u8>
    ensures { result.items ≡ [] }
{
    match Vec::with_capacity(alloc, room) {
        Ok(bytes) => bytes,
        Err(_) => Vec::new(alloc),
    }
}

// The text of a run of items in memory, which begins with room for so many bytes, or `None` for want
// of memory.
fn in_memory<S: Section>(
    alloc: Global,
    section: &S,
    from: usize,
    to: usize,
    room: usize,
) -> Option<MemorySink>
    requires { (from ≤ to) × (to ≤ S.size section.now) }
    ensures { IsPart (S.text section.now) (S.known section.now) from to result }
{
    let mut sink = MemorySink::new(with_room(alloc, room), usize::MAX, Vec::new(alloc));
    if write_run(section, &mut sink, from, to) {
        Some(sink)
    } else {
        None
    }
}

// The parts between the cuts, each printed in a thread of its own where one can be made.
fn printed_parts<R: Threads, S: Section + Sync>(
    crew: &Crew<R>,
    section: &S,
    cuts: &[usize],
    room: usize,
) -> Result<Vec<Option<MemorySink>>, Memory>
    requires { AreRising cuts.now (S.size section.now) }
    ensures len { IfOk result (λ parts. vec_len parts + 1 ≡ length cuts.now) }
    ensures parts { IfOk result (λ parts. AreParts (S.text section.now) (S.known section.now)
        cuts.now parts.items) }
{
    let alloc = crew.alloc;
    Ok(thread::map_indices(
        &crew.leave,
        alloc,
        cuts.len() - 1,
        &|i| -> Option<MemorySink>
            requires { AreRising cuts.now (S.size section.now) × (i + 1 < length cuts.now) }
            ensures { IsPart (S.text section.entry.now) (S.known section.entry.now)
                (cut_at cuts.entry.now i) (cut_at cuts.entry.now (i + 1)) result }
        { in_memory(alloc, section, cuts[i], cuts[i + 1], room) },
    )?)
}

// Puts a part on a paper, or prints it there where there was no memory for it.
fn put_part<S: Section, K: Sink>(
    section: &S,
    out: &mut Paper<K>,
    from: usize,
    to: usize,
    part: &Option<MemorySink>,
)
    requires within { (from ≤ to) × (to ≤ S.size section.now) }
    requires part { IsPart (S.text section.now) (S.known section.now) from to part.now }
    ensures printed { Prints K.written K.faults out.old out.new (S.text section.now from to) }
{
    match part {
        Some(sink) => out.put(sink.bytes()),
        None => section.print(out, from, to),
    }
}

// Puts the parts on a paper, one after the other.
fn put_parts<S: Section, K: Sink>(
    section: &S,
    out: &mut Paper<K>,
    cuts: &[usize],
    parts: &[Option<MemorySink>],
)
    requires cuts { AreRising cuts.now (S.size section.now) }
    requires len { length parts.now + 1 ≡ length cuts.now }
    requires parts { AreParts (S.text section.now) (S.known section.now) cuts.now parts.now }
    ensures printed { Prints K.written K.faults out.old out.new
        (S.text section.now (cut_at cuts.now 0) (last_cut cuts.now)) }
    ensures known { S.known section.now (cut_at cuts.now 0) (last_cut cuts.now) }
{
    for (i, part) in parts.iter().enumerate() {
        put_part(section, out, cuts[i], cuts[i + 1], part);
    }
}

/// Prints the parts between the cuts, each by a thread that begins with room for so many bytes. Want of
/// memory for the threads leaves them to this one.
pub(crate) fn print_turn<R: Threads, S: Section + Sync, K: Sink>(
    crew: &Crew<R>,
    section: &S,
    out: &mut Paper<K>,
    cuts: &[usize],
    room: usize,
)
    requires { AreRising cuts.now (S.size section.now) }
    ensures printed { Prints K.written K.faults out.old out.new
        (S.text section.now (cut_at cuts.now 0) (last_cut cuts.now)) }
    ensures known { S.known section.now (cut_at cuts.now 0) (last_cut cuts.now) }
{
    match printed_parts(crew, section, cuts, room) {
        Ok(parts) => put_parts(section, out, cuts, parts.as_slice()),
        Err(Memory) => section.print(out, cuts[0], cuts[cuts.len() - 1]),
    }
}
