// SPDX-License-Identifier: GPL-2.0-only
//! Reading a script, its workers by several threads.

ghost use Rattle.std.specs.Prelude.{◌≤◌, ◌<◌, ◌^◌, ◌++◌, ℕ, length, IfOk, IfErr, IfSome};
ghost use Rattle.std.specs.Thread.{IsSync};
ghost use Rattle.shr_base.specs.declared.scripts.Code.{Code};
ghost use Rattle.shr_script.specs.Content.{Content, content_of, lines_of};
ghost use Rattle.shr_script.specs.Spelling.{IsSpelling};
ghost use Rattle.shr_script.specs.Faults.{IsFault};
ghost use Rattle.shr_script.specs.Read.{ReadsScript, IsCause, TellsFault};
ghost use Rattle.shr_reading.specs.Parts.{IsHead, end_text};

use crate::cutting::cut;
use crate::joining::joined;
use crate::parts::{Head, read_head, read_part};
use shr_base::scripts::Script;
use shr_script::read::{ReadError, read_script};
use std::alloc::Global;
use std::thread::{Threads, join};

// Scripts below this many bytes are read before a thread has begun.
const FEW_BYTES: usize = 65_536;

// Where a cut in two halves is looked for: short of the middle, since it is behind this place.
fn near_middle(run: &[u8]) -> usize
    ensures { result ≤ length run.now }
{
    run.len() / 8 * 3
}

// Reads a run of workers between the head and the tail, cut in two so many times where a worker
// begins, each half in a thread of its own. `None` where it is no script, or for want of memory.
#[cycle(runs)]
fn read_run<R: Threads + Sync>(
    rt: &R,
    alloc: Global,
    head: &Head,
    run: &[u8],
    tail: &[u8],
    cuts: u8,
) -> Option<Script>
    requires { IsHead head.now.bytes.now (content_of head.now.script) }
    ensures { IfSome result (λ s.
        IsSpelling (head.now.bytes.now ++ (run.now ++ tail.now)) (content_of s)) }
{
    if cuts == 0 {
        return read_part(alloc, head.bytes, run, tail);
    }
    let Some((left, right)) = cut(run, near_middle(run)) else {
        return read_part(alloc, head.bytes, run, tail);
    };
    let fewer = cuts - 1;
    let front = move || -> Option<Script>
        requires { IsSync R.row × IsHead head.now.bytes.now (content_of head.now.script) }
        ensures { IfSome result (λ s. IsSpelling
            (head.entry.now.bytes.now ++ (left.entry.now ++ end_text)) (content_of s)) }
    { read_run(rt, alloc, head, left, b"end\n", fewer) };
    let back = move || -> Option<Script>
        requires { IsSync R.row × IsHead head.now.bytes.now (content_of head.now.script) }
        ensures { IfSome result (λ s. IsSpelling
            (head.entry.now.bytes.now ++ (right.entry.now ++ tail.entry.now)) (content_of s)) }
    { read_run(rt, alloc, head, right, tail, fewer) };
    let (first, second) = join(rt, front, back);
    joined(&head.script, first?, second?)
}

// Reads a script of several workers in up to four runs. `None` where it is none, has few workers,
// or for want of memory.
pub(crate) fn read_in_runs<R: Threads + Sync>(rt: &R, alloc: Global, bytes: &[u8]) -> Option<Script>
    ensures { IfSome result (λ s. IsSpelling bytes.now (content_of s)) }
{
    let (declarations, run) = cut(bytes, 0)?;
    // One run alone is read as it stands.
    cut(run, near_middle(run))?;
    let head = read_head(alloc, declarations)?;
    read_run(rt, alloc, &head, run, b"", 2)
}

/// The script that the bytes spell, or the first bad line and what is wrong with it, as
/// `read_script` of `shr_script` answers.
///
/// Only want of memory is answered otherwise. A long script of several workers is read in runs of
/// neighbours, each in a thread of its own where one can be made. What can't be read so is read again,
/// by this thread.
pub fn read_on_threads<R: Threads + Sync>(
    rt: &R,
    alloc: Global,
    bytes: &[u8],
) -> Result<Script, ReadError>
    // What is read is spelled so.
    ensures found { IfOk result (λ s. IsSpelling bytes.now (content_of s)) }
    // What is spelled so is read, unless memory runs out.
    ensures only { (t : Content) → IsSpelling bytes.now t → ReadsScript result t }
    // A fault is that of the first bad line.
    ensures fault { IfErr result (λ e. IsCause e bytes.now) }
    // And each such fault is returned, unless memory runs out.
    ensures told { (line : ℕ) (code : Code) → IsFault bytes.now line code
        → TellsFault result (line, code) }
    // The limits leave room for few lines.
    ensures short { IfOk result (λ s. length (lines_of (content_of s)) < 2 ^ 32) }
{
    if bytes.len() < FEW_BYTES {
        return read_script(alloc, bytes);
    }
    match read_in_runs(rt, alloc, bytes) {
        Some(script) => Ok(script),
        None => read_script(alloc, bytes),
    }
}
