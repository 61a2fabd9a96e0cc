// SPDX-License-Identifier: GPL-2.0-only
//! One part of a script, read as a script of its own.

ghost use Rattle.std.specs.Prelude.{◌≡◌, ◌++◌, IfOk, IfSome};
ghost use Rattle.shr_script.specs.Content.{content_of};
ghost use Rattle.shr_script.specs.Spelling.{IsSpelling};
ghost use Rattle.shr_reading.specs.Parts.{IsHead};

use shr_base::scripts::Script;
use shr_script::read::read_script;
use std::alloc::{AllocError, Global};

/// The bytes up to the first worker, and the script that they spell with an `end` behind them.
#[derive(Drop)]
pub(crate) struct Head<'a> {
    pub(crate) bytes: &'a [u8],
    pub(crate) script: Script,
}

// The three texts as one.
fn whole(alloc: Global, head: &[u8], run: &[u8], tail: &[u8]) -> Result<Vec<u8>, AllocError>
    ensures { IfOk result (λ v. v.items ≡ head.now ++ (run.now ++ tail.now)) }
{
    let len = head.len().saturating_add(run.len());
    let mut text = Vec::with_capacity(alloc, len.saturating_add(tail.len()))?;
    text.extend_from_slice(head)?;
    text.extend_from_slice(run)?;
    text.extend_from_slice(tail)?;
    Ok(text)
}

/// The script that the three texts spell as one. `None` where they spell none, or for want of
/// memory.
pub(crate) fn read_part(alloc: Global, head: &[u8], run: &[u8], tail: &[u8]) -> Option<Script>
    ensures { IfSome result (λ s.
        IsSpelling (head.now ++ (run.now ++ tail.now)) (content_of s)) }
{
    let text = whole(alloc, head, run, tail).ok()?;
    read_script(alloc, text.as_slice()).ok()
}

/// The head of a script, where these bytes are one: all of its declarations, and no worker. `None`
/// where they aren't, or for want of memory.
pub(crate) fn read_head(alloc: Global, bytes: &[u8]) -> Option<Head<'_>>
    ensures { IfSome result (λ h. (h.bytes.now ≡ bytes.now)
        × IsHead bytes.now (content_of h.script)) }
{
    let script = read_part(alloc, bytes, b"", b"end\n")?;
    if script.workers.len() == 0 && script.sweep.is_none() {
        Some(Head { bytes, script })
    } else {
        None
    }
}
