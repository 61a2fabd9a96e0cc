// SPDX-License-Identifier: GPL-2.0-only
//! Reports that are judged by the script before them, over ends that fail at each of their calls in turn.

use crate::failures::{SCRIPT, TEXT};
use crate::gates::Counting;
use crate::runs::words_of;
use shr_outside::sinks::MemorySink;
use shr_outside::sources::MemorySource;
use shr_tool::afterwards::Afterwards;
use shr_tool::status::Status;
use shr_tool::top::top;
use std::alloc::Global;
use std::sync::Wait;
use std::test::Fail;
use std::thread::Threads;

// The report with another total.
const OTHER: &str =
    "report 1\nsize 1 1\ngroup 0 /\ngroup 1 /a\ncache 0 dentry\npool 0 registered 0 0 0\nreply 0 0 added 0 0 1 0\nfind 0 0 1\nlist 0 0 1\nadd 0 0 1 k1 =v1 added\nitem 0 0 1 k1 =v1 clean loose\nbit 0 1 0000000000000001\nuse 0 0 + 0 0 0\nuse 1 0 + 0 0 0\nlookups 0 1\ntotal 0 0 1 1 0\nend\n";

// In how many pieces of ten bytes the script and its report are read.
const PIECES: usize = 37;

// The size of a piece of both ends, and which read and which write fails, counted from 1.
#[derive(Clone, Copy)]
struct Ends {
    piece: usize,
    read: usize,
    write: usize,
}

// Ends that don't fail.
fn whole(piece: usize) -> Ends {
    Ends {
        piece,
        read: 0,
        write: 0,
    }
}

// The status of an audit of these bytes, how much of a text was written, where it is a beginning of it, and how often the gate
// was called.
fn judge<R: Threads + Wait + Sync>(
    rt: &R,
    alloc: Global,
    bytes: Vec<u8>,
    ends: Ends,
    text: &str,
) -> Result<(Status, Option<usize>, u64), Fail> {
    let words = words_of(alloc, "audit")?;
    let (reads, writes) = (vec![in alloc; ends.read]?, vec![in alloc; ends.write]?);
    let mut source = MemorySource::new(bytes, ends.piece, reads);
    let mut sink = MemorySink::new(Vec::new(alloc), ends.piece, writes);
    let (gate, afterwards) = (Counting::new(), Afterwards::GiveBack);
    let status = top(rt, alloc, &words, &mut source, &mut sink, &gate, afterwards);
    let is_front = text.as_bytes().starts_with(sink.bytes());
    Ok((
        status,
        is_front.then_some(sink.bytes().len()),
        gate.seen().0,
    ))
}

// The same of a script and what stands behind it.
fn audit<R: Threads + Wait + Sync>(
    rt: &R,
    alloc: Global,
    script: &str,
    report: &str,
    ends: Ends,
    text: &str,
) -> Result<(Status, Option<usize>, u64), Fail> {
    let mut bytes = Vec::from_slice(alloc, script.as_bytes())?;
    bytes.extend_from_slice(report.as_bytes())?;
    judge(rt, alloc, bytes, ends, text)
}

#[test]
fn each_read_of_an_audit_may_fail(rt: HostRuntime) -> Result<(), Fail> {
    for read in 1..PIECES + 2 {
        let ends = Ends {
            piece: 10,
            read,
            write: 0,
        };
        let failed = audit(&rt, rt.alloc(), SCRIPT, TEXT, ends, "lawful\n")?;
        assert_eq!(rt; failed, (Status::ReadFault, Some(0), 0));
    }
    let ends = Ends {
        piece: 10,
        read: PIECES + 2,
        write: 0,
    };
    let done = audit(&rt, rt.alloc(), SCRIPT, TEXT, ends, "lawful\n")?;
    assert_eq!(rt; done, (Status::Done, Some(7), 0));
    Ok(())
}

#[test]
fn each_write_of_an_audit_may_fail(rt: HostRuntime) -> Result<(), Fail> {
    for before in 0..12 {
        let ends = Ends {
            piece: 1,
            read: 0,
            write: before + 1,
        };
        let failed = audit(&rt, rt.alloc(), SCRIPT, OTHER, ends, "unlawful L3\n")?;
        assert_eq!(rt; failed, (Status::WriteFault, Some(before), 0));
    }
    Ok(())
}

#[test]
fn a_byte_past_the_limit_of_an_audit_is_too_long(rt: HostRuntime) -> Result<(), Fail> {
    let bytes = vec![in rt.alloc(); b'x'; 67_108_865]?;
    let long = judge(&rt, rt.alloc(), bytes, whole(65_536), "")?;
    assert_eq!(rt; long, (Status::TooLong, Some(0), 0));
    let bytes = vec![in rt.alloc(); b'x'; 67_108_864]?;
    let longest = judge(&rt, rt.alloc(), bytes, whole(65_536), "refused 1 NoEnd\n")?;
    assert_eq!(rt; longest, (Status::Refused, Some(16), 0));
    Ok(())
}
