// SPDX-License-Identifier: GPL-2.0-only
//! Long scripts whose workers are read on threads, and the fault of one.

use shr_base::scripts::{Code, Script};
use shr_reading::reading::read_on_threads;
use shr_script::read::ReadError;
use std::alloc::{AllocError, Global};
use std::thread::Threads;

const HEAD: &[u8] = b"shrinkers 2\nsize 1 1\ngroup /a max\ncache dentry plain 2 0 0 any on\n";

const PUT: &[u8] = b"put /a 0 dentry k1 =v1\n";

// How many commands each of three workers has, what stands behind those of the second, and the last lines.
type Given = ([usize; 3], &'static [u8], &'static [u8]);

// The text of such a script.
fn text_of(alloc: Global, given: &Given) -> Result<Vec<u8>, AllocError> {
    let (puts, behind, last) = *given;
    let mut text = Vec::from_slice(alloc, HEAD)?;
    for (worker, each) in puts.iter().enumerate() {
        text.extend_from_slice(b"worker\n")?;
        for _ in 0..*each {
            text.extend_from_slice(PUT)?;
        }
        if worker == 1 {
            text.extend_from_slice(behind)?;
        }
    }
    text.extend_from_slice(last)?;
    Ok(text)
}

// Whether a script was read with these commands, and whether it has a sweep.
fn is_read(script: &Script, commands: [usize; 3], sweep: bool) -> bool {
    let workers = script.workers.as_slice();
    let mut pairs = workers.iter().zip(commands);
    workers.len() == 3
        && pairs.all(|(worker, many)| worker.commands.len() == many)
        && script.sweep.is_some() == sweep
}

const WHOLE: Given = ([900, 1200, 1500], b"", b"end\n");

// A worker without a command between two, and a sweep.
const SWEPT: Given = ([1500, 0, 1500], b"", b"sweep 4 fs\nend\n");

const FAULTY: Given = ([1000, 1000, 1000], b"put /b 0 dentry k1 =v1\n", b"end\n");

// Whether the script is read on threads with these workers.
fn reads<R: Threads + Sync>(rt: &R, alloc: Global, given: &Given) -> Result<bool, AllocError> {
    let text = text_of(alloc, given)?;
    let found = read_on_threads(rt, alloc, text.as_slice());
    let sweep = given.2 != b"end\n".as_slice();
    Ok(found.is_ok_and(|script| is_read(&script, given.0, sweep)))
}

// The line and the code of its refusal.
fn refusal<R: Threads + Sync>(
    rt: &R,
    alloc: Global,
    given: &Given,
) -> Result<Option<(u32, Code)>, AllocError> {
    let text = text_of(alloc, given)?;
    Ok(match read_on_threads(rt, alloc, text.as_slice()) {
        Err(ReadError::Fault { line, code }) => Some((line, code)),
        _ => None,
    })
}

#[test]
fn a_long_script_is_read_on_threads(rt: HostRuntime) -> Result<(), AllocError> {
    let whole = reads(&rt, rt.alloc(), &WHOLE)?;
    let swept = reads(&rt, rt.alloc(), &SWEPT)?;
    assert!(rt; whole && swept);
    Ok(())
}

#[test]
fn a_fault_of_the_second_worker_is_told(rt: HostRuntime) -> Result<(), AllocError> {
    let told = refusal(&rt, rt.alloc(), &FAULTY)?;
    assert_eq!(rt; told, Some((2007, Code::UnknownGroup)));
    Ok(())
}
