// SPDX-License-Identifier: GPL-2.0-only
//! Ends that fail at each of their calls in turn.

use crate::gates::Open;
use crate::runs::words_of;
use shr_outside::sinks::MemorySink;
use shr_outside::sources::MemorySource;
use shr_tool::afterwards::Afterwards;
use shr_tool::status::Status;
use shr_tool::top::top;
use std::alloc::Global;
use std::sync::Wait;
use std::test::Fail;
use std::thread::Threads;

/// A script of ten pieces of ten bytes, and its report of 27.
pub(crate) const SCRIPT: &str =
    "shrinkers 1\nsize 1 1\ngroup /a max\ncache dentry plain 2 0 0 any on\nworker\nput /a 0 dentry k1 =v1\nend\n";

/// The report of the script.
pub(crate) const TEXT: &str =
    "report 1\nsize 1 1\ngroup 0 /\ngroup 1 /a\ncache 0 dentry\npool 0 registered 0 0 0\nreply 0 0 added 0 0 1 0\nfind 0 0 1\nlist 0 0 1\nadd 0 0 1 k1 =v1 added\nitem 0 0 1 k1 =v1 clean loose\nbit 0 1 0000000000000001\nuse 0 0 + 0 0 0\nuse 1 0 + 0 0 0\nlookups 0 1\ntotal 1 0 1 1 0\nend\n";

// In how many pieces the report is written.
const PIECES: usize = 27;

// The status of the script in pieces of ten bytes, of which this read and this write fail, counted from 1; and how
// much of the report was written, where it is a beginning of it.
fn run_failing<R: Threads + Wait + Sync>(
    rt: &R,
    alloc: Global,
    read: usize,
    write: usize,
) -> Result<(Status, Option<usize>), Fail> {
    let words = words_of(alloc, "run")?;
    let bytes = Vec::from_slice(alloc, SCRIPT.as_bytes())?;
    let (reads, writes) = (vec![in alloc; read]?, vec![in alloc; write]?);
    Ok(run(rt, alloc, &words, bytes, reads, writes))
}

// The same of these words and bytes. Nothing is written of another text.
fn run<R: Threads + Wait + Sync>(
    rt: &R,
    alloc: Global,
    words: &Vec<String>,
    bytes: Vec<u8>,
    reads: Vec<usize>,
    writes: Vec<usize>,
) -> (Status, Option<usize>) {
    let mut source = MemorySource::new(bytes, 10, reads);
    let mut sink = MemorySink::new(Vec::new(alloc), 10, writes);
    let afterwards = Afterwards::GiveBack;
    let status = top(rt, alloc, words, &mut source, &mut sink, &Open, afterwards);
    let is_front = TEXT.as_bytes().starts_with(sink.bytes());
    (status, is_front.then_some(sink.bytes().len()))
}

#[test]
fn each_read_may_fail(rt: HostRuntime) -> Result<(), Fail> {
    for read in 1..12 {
        let failed = run_failing(&rt, rt.alloc(), read, 0)?;
        assert_eq!(rt; failed, (Status::ReadFault, Some(0)));
    }
    let done = run_failing(&rt, rt.alloc(), 12, 0)?;
    assert_eq!(rt; done, (Status::Done, Some(TEXT.len())));
    Ok(())
}

#[test]
fn each_write_may_fail(rt: HostRuntime) -> Result<(), Fail> {
    for before in 0..PIECES {
        let failed = run_failing(&rt, rt.alloc(), 0, before + 1)?;
        assert_eq!(rt; failed, (Status::WriteFault, Some(10 * before)));
    }
    let done = run_failing(&rt, rt.alloc(), 0, PIECES + 1)?;
    assert_eq!(rt; done, (Status::Done, Some(TEXT.len())));
    Ok(())
}
