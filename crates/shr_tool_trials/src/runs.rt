// SPDX-License-Identifier: GPL-2.0-only
//! Whole runs, over sources and sinks in memory.

use crate::gates::{Counting, Meeting, Open};
use shr_outside::outside::Gate;
use shr_outside::sinks::MemorySink;
use shr_outside::sources::MemorySource;
use shr_tool::afterwards::Afterwards;
use shr_tool::status::Status;
use shr_tool::top::top;
use std::alloc::Global;
use std::sync::Wait;
use std::test::Fail;
use std::thread::Threads;

/// The words of a line.
pub(crate) fn words_of(alloc: Global, line: &str) -> Result<Vec<String>, Fail> {
    let mut words = Vec::new(alloc);
    for word in line.split(' ') {
        words.push(String::from_str(alloc, word)?)?;
    }
    Ok(words)
}

// The status of a run whose source fails at these calls, and whether this was written.
fn run<R: Threads + Wait + Sync, G: Gate + Sync>(
    rt: &R,
    alloc: Global,
    words: &Vec<String>,
    bytes: Vec<u8>,
    reads: Vec<usize>,
    gate: &G,
    text: Option<&[u8]>,
) -> (Status, bool) {
    let mut source = MemorySource::new(bytes, 65_536, reads);
    let mut sink = MemorySink::new(Vec::new(alloc), 100, Vec::new(alloc));
    let afterwards = Afterwards::GiveBack;
    let status = top(rt, alloc, words, &mut source, &mut sink, gate, afterwards);
    (status, text.is_none_or(|text| sink.bytes() == text))
}

const COUNTED: &[u8] =
    b"shrinkers 1\nsize 1 1\ngroup /a max\ncache dentry plain 2 0 0 any on\nworker\nshrink /a 0 0 fs\nshrink / 0 0 fs\nworker\nworker\nshrink /a 0 0 fs\nend\n";

#[test]
fn the_gate_is_called_before_each_command(rt: HostRuntime) -> Result<(), Fail> {
    let words = words_of(rt.alloc(), "run")?;
    let bytes = Vec::from_slice(rt.alloc(), COUNTED)?;
    let gate = Counting::new();
    let run = run(
        &rt,
        rt.alloc(),
        &words,
        bytes,
        Vec::new(rt.alloc()),
        &gate,
        None,
    );
    assert_eq!(rt; (run, gate.seen()), ((Status::Done, true), (3, 2001)));
    Ok(())
}

const MEETING: &[u8] =
    b"shrinkers 1\nsize 1 1\ngroup /a max\ncache dentry plain 2 0 0 any on\nworker\nput /a 0 dentry a =\nput /a 0 dentry b =\nworker\nput /a 0 dentry c =\nput /a 0 dentry d =\nend\n";

#[test]
fn two_workers_run_side_by_side(rt: HostRuntime) -> Result<(), Fail> {
    let words = words_of(rt.alloc(), "run")?;
    let bytes = Vec::from_slice(rt.alloc(), MEETING)?;
    let gate = Meeting::new();
    let run = run(
        &rt,
        rt.alloc(),
        &words,
        bytes,
        Vec::new(rt.alloc()),
        &gate,
        None,
    );
    assert_eq!(rt; (run, gate.alone()), ((Status::Done, true), 0));
    Ok(())
}

const HELPING: &[u8] =
    b"shrinkers 2\nsize 1 1\ngroup /a max\ncache dentry plain 2 0 0 any on\nworker\nput /a 0 dentry a =\nworker\nput /a 0 dentry b =\nsweep 0 fs\nend\n";

// Each helper waits for the other, with the number of its worker's commands.
#[test]
fn two_helpers_work_side_by_side(rt: HostRuntime) -> Result<(), Fail> {
    let words = words_of(rt.alloc(), "run")?;
    let bytes = Vec::from_slice(rt.alloc(), HELPING)?;
    let gate = Meeting::new();
    let run = run(
        &rt,
        rt.alloc(),
        &words,
        bytes,
        Vec::new(rt.alloc()),
        &gate,
        None,
    );
    assert_eq!(rt; (run, gate.alone()), ((Status::Done, true), 0));
    Ok(())
}

// The status of a run whose input is so many bytes of no script, and whether this was written.
fn run_of_bytes<R: Threads + Wait + Sync>(
    rt: &R,
    alloc: Global,
    bytes: usize,
    text: &[u8],
) -> Result<(Status, bool), Fail> {
    let words = words_of(alloc, "run")?;
    let bytes = vec![in alloc; b'x'; bytes]?;
    Ok(run(rt, alloc, &words, bytes, Vec::new(alloc), &Open, Some(text)))
}

#[test]
fn a_byte_past_the_limit_is_too_long(rt: HostRuntime) -> Result<(), Fail> {
    let long = run_of_bytes(&rt, rt.alloc(), 4_194_305, b"")?;
    assert_eq!(rt; long, (Status::TooLong, true));
    let longest = run_of_bytes(&rt, rt.alloc(), 4_194_304, b"refused 1 NoEnd\n")?;
    assert_eq!(rt; longest, (Status::Refused, true));
    Ok(())
}

// Words of gen, what they are answered, and how often the gate is called.
const GENERATED: [(&str, &[u8], u64); 3] = [
    (
        "gen 7 2 16",
        b"gen 7 2 16\nreplies 32\nadded 20\nkept 20\nend\n",
        32,
    ),
    (
        "gen 1 20 100",
        b"gen 1 20 100\nreplies 2000\nadded 1270\nkept 1270\nend\n",
        2000,
    ),
    (
        "gen 18446744073709551615 1 1",
        b"gen 18446744073709551615 1 1\nreplies 1\nadded 1\nkept 1\nend\n",
        1,
    ),
];

// The status of words of gen, whether this was written, and how often the gate was called.
fn generated<R: Threads + Wait + Sync>(
    rt: &R,
    alloc: Global,
    line: &str,
    text: &[u8],
) -> Result<(Status, bool, u64), Fail> {
    let words = words_of(alloc, line)?;
    // A read would fail.
    let reads = vec![in alloc; 1]?;
    let gate = Counting::new();
    let (status, is_written) = run(rt, alloc, &words, Vec::new(alloc), reads, &gate, Some(text));
    Ok((status, is_written, gate.seen().0))
}

#[test]
fn a_generated_script_is_run(rt: HostRuntime) -> Result<(), Fail> {
    for (line, text, calls) in GENERATED {
        let generated = generated(&rt, rt.alloc(), line, text)?;
        assert_eq!(rt; generated, (Status::Done, true, calls));
    }
    Ok(())
}
