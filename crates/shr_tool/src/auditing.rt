// SPDX-License-Identifier: GPL-2.0-only
//! Judging a report by the script that stands before it.

ghost use Rattle.std.specs.Prelude.{◌≡◌, ◌≤◌, ◌+◌, IfOk, length, take, drop};
ghost use Rattle.shr_tool.specs.Top.{source_seen, sink_seen};
ghost use Rattle.shr_tool.specs.Audit.{IsSplit, verdict_text, status_of, JudgeGives, AuditGives};

use crate::reading::{AUDIT_LIMIT, Input, read_all};
use crate::refusing::refusal;
use crate::status::Status;
use itoa::Buffer;
use shr_audit::audit::audit;
use shr_audit::verdict::Verdict;
use shr_base::memory::Memory;
use shr_outside::outside::{Sink, Source};
use shr_outside::writing::write_all;
use std::alloc::Global;

// How many bytes the script has that an input begins with.
fn script_length(bytes: &[u8]) -> usize
    ensures within { result ≤ length bytes.now }
    ensures split { IsSplit bytes.now (take result bytes.now) (drop result bytes.now) }
{
    let mut start = 0;
    for (at, byte) in bytes.iter().enumerate() {
        if *byte == b'\n' {
            if &bytes[start..at] == b"end".as_slice() {
                return at + 1;
            }
            start = at + 1;
        }
    }
    bytes.len()
}

// The script that an input begins with, and what stands behind it.
fn split(bytes: &[u8]) -> (&[u8], &[u8])
    ensures { IsSplit bytes.now result.0.now result.1.now }
{
    let length = script_length(bytes);
    (&bytes[..length], &bytes[length..])
}

// The line that tells a verdict.
fn verdict_text(alloc: Global, verdict: Verdict) -> Result<Vec<u8>, Memory>
    ensures { IfOk result (λ text. text.items ≡ verdict_text verdict) }
{
    let law = match verdict {
        Verdict::Lawful => return Ok(Vec::from_slice(alloc, b"lawful\n")?),
        Verdict::BadScript { line, code } => return refusal(alloc, line, code),
        Verdict::BadReport => return Ok(Vec::from_slice(alloc, b"refused report\n")?),
        Verdict::Unlawful { clause } => clause,
    };
    let mut buffer = Buffer::new();
    let mut text = Vec::from_slice(alloc, b"unlawful L")?;
    text.extend_from_slice(buffer.format(law.number()).as_bytes())?;
    text.extend_from_slice(b"\n")?;
    Ok(text)
}

// How a call ends that told a verdict.
fn status_of(verdict: Verdict) -> Status
    ensures { result ≡ status_of verdict }
{
    match verdict {
        Verdict::Lawful => Status::Done,
        Verdict::BadScript { .. } | Verdict::BadReport => Status::Refused,
        Verdict::Unlawful { .. } => Status::Unlawful,
    }
}

// Judges an input that was read to its end, and tells the verdict.
fn judge<K: Sink>(alloc: Global, bytes: &[u8], sink: &mut K) -> Status
    ensures judged { JudgeGives bytes.now
        (sink_seen K.written K.faults sink.old sink.new) result }
    ensures later { K.faults sink.old ≤ K.faults sink.new }
{
    let (script, report) = split(bytes);
    let Ok(verdict) = audit(alloc, script, report) else {
        return Status::Memory;
    };
    let Ok(text) = verdict_text(alloc, verdict) else {
        return Status::Memory;
    };
    if write_all(sink, text.as_slice()) {
        status_of(verdict)
    } else {
        Status::WriteFault
    }
}

/// Reads a script and the report behind it to their end, judges the report, and tells the verdict. It
/// starts no thread and waits for nothing.
pub fn read_and_judge<S: Source, K: Sink>(alloc: Global, source: &mut S, sink: &mut K) -> Status
    ensures audited { AuditGives
        (source_seen S.left S.faults source.old source.new)
        (sink_seen K.written K.faults sink.old sink.new) result }
    ensures turns { S.turns source.new ≤ S.turns source.old + 67108865 }
    ensures source_later { S.faults source.old ≤ S.faults source.new }
    ensures sink_later { K.faults sink.old ≤ K.faults sink.new }
{
    match read_all(alloc, source, AUDIT_LIMIT) {
        Input::All { bytes } => judge(alloc, bytes.as_slice(), sink),
        Input::Failed => Status::ReadFault,
        Input::TooLong => Status::TooLong,
        Input::Memory => Status::Memory,
    }
}
