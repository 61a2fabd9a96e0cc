// SPDX-License-Identifier: GPL-2.0-only
//! Reading a source to its end.

ghost use Rattle.std.specs.Prelude.{◌≡◌, ◌≤◌, ◌+◌, ◌++◌, OnOk};
ghost use Rattle.shr_tool.specs.Reading.{ReadsInput};

use shr_outside::outside::{Source, Took};
use std::alloc::{AllocError, Global};

/// The most bytes of a script.
pub(crate) const SCRIPT_LIMIT: usize = 4_194_304;

/// The most bytes of a script with a report behind it.
pub(crate) const AUDIT_LIMIT: usize = 67_108_864;

// The most bytes that are copied at once: pieces of some 4 KB and more the C library copies by one
// instruction that is counted once a byte.
const PIECE: usize = 2048;

/// What reading a source gave.
#[derive(Drop)]
pub enum Input {
    /// All the bytes, which are within the limit.
    All { bytes: Vec<u8> },
    /// The source failed.
    Failed,
    /// The source has more bytes than the limit.
    TooLong,
    /// There was no memory for the bytes.
    Memory,
}

// Adds bytes at the end, a piece at a time.
fn append(bytes: &mut Vec<u8>, more: &[u8]) -> Result<(), AllocError>
    ensures { OnOk result (bytes.new.items ≡ bytes.old.items ++ more.now) }
{
    let mut left = more;
    while left.len() > PIECE {
        let (piece, behind) = left.split_at(PIECE);
        bytes.extend_from_slice(piece)?;
        left = behind;
    }
    bytes.extend_from_slice(left)
}

/// All the bytes that are left, where there are no more than the limit.
pub fn read_all<S: Source>(alloc: Global, source: &mut S, limit: usize) -> Input
    ensures input { ReadsInput limit (S.left source.old) (S.left source.new) (S.faults source.old)
        (S.faults source.new) result }
    ensures later { S.faults source.old ≤ S.faults source.new }
    ensures turns { S.turns source.new ≤ S.turns source.old + (limit + 1) }
{
    let mut bytes = Vec::new(alloc);
    let mut buffer = [0u8; 16384];
    'taking: loop {
        match source.take(&mut buffer) {
            Took::Got { n } => {
                if n > limit - bytes.len() {
                    return Input::TooLong;
                }
                if append(&mut bytes, &buffer[..n]).is_err() {
                    return Input::Memory;
                }
            }
            Took::End => return Input::All { bytes },
            Took::Failed => return Input::Failed,
        }
    }
}
