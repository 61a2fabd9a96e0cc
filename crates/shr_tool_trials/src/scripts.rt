// SPDX-License-Identifier: GPL-2.0-only
//! The most commands that a script may have, and one more.

use shr_base::scripts::Code;
use shr_script::read::{ReadError, read_script};
use std::alloc::{AllocError, Global};

// A script of one worker with so many commands.
fn large(alloc: Global, commands: u32) -> Result<Vec<u8>, AllocError> {
    let mut bytes = Vec::new(alloc);
    bytes.extend_from_slice(b"shrinkers 1\nsize 1 1\ncache c plain 2 0 0 any on\nworker\n")?;
    for _ in 0..commands {
        bytes.extend_from_slice(b"put / 0 c k =v\n")?;
    }
    bytes.extend_from_slice(b"end\n")?;
    Ok(bytes)
}

// The line and the code of the refusal, if there is one.
fn refusal(alloc: Global, commands: u32) -> Result<Option<(u32, Code)>, AllocError> {
    let bytes = large(alloc, commands)?;
    Ok(match read_script(alloc, bytes.as_slice()) {
        Ok(_) => None,
        Err(ReadError::Fault { line, code }) => Some((line, code)),
        Err(_) => Some((0, Code::NoEnd)),
    })
}

#[test]
fn a_script_has_20000_commands_at_the_most(rt: HostRuntime) -> Result<(), AllocError> {
    let most = refusal(rt.alloc(), 20_000)?;
    let more = refusal(rt.alloc(), 20_001)?;
    assert_eq!(rt; (most, more), (None, Some((20_005, Code::TooMany))));
    Ok(())
}
