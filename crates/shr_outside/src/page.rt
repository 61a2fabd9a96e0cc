// SPDX-License-Identifier: GPL-2.0-only
//! A page of bytes.

ghost use Rattle.std.specs.Prelude.{◌≡◌, ◌↔◌, ◌≤◌, ◌+◌, [], ◌++◌, true, length, take, MatchBool};

use std::marker::Model;

// The most bytes of a page.
const ROOM: usize = 16_384;

/// Up to 16,384 bytes, which contracts see as their list. It takes no memory of the heap, and is
/// emptied without a write.
#[derive(Drop)]
pub struct Page {
    bytes: [u8; ROOM],
    len: usize,
}

impl Model for Page {
    ghost use Rattle.std.specs.Prelude.{List, ℕ, ◌≤◌, take};

    ghost Value = { List ℕ };

    ghost view = { λ p. take p.len p.bytes };

    ghost invariant = { λ p. p.len ≤ 16384 };
}

// Copies bytes to a place in a row of bytes.
#[tactic(auto, using(crate::proofs::Bytes::placed))]
#[inline(always)]
fn copy_in(into: &mut [u8], at: usize, bytes: &[u8])
    requires { at + length bytes.now ≤ length into.old }
    ensures { take (at + length bytes.now) into.new ≡ take at into.old ++ bytes.now }
{
    let (_, room) = into.split_at_mut(at);
    let (place, _) = room.split_at_mut(bytes.len());
    place.copy_from_slice(bytes);
}

impl Page {
    /// An empty page.
    pub fn new() -> Page
        ensures { result ≡ [] }
    {
        Page {
            bytes: [0; ROOM],
            len: 0,
        }
    }

    /// Puts bytes behind those that are there, if there is room, and answers whether there was.
    #[tactic(auto, using(crate::proofs::Bytes::front_length))]
    #[inline(always)]
    pub fn put(&mut self, bytes: &[u8]) -> bool
        ensures put { MatchBool result (self.new ≡ self.old ++ bytes.now) (self.new ≡ self.old) }
        ensures room { result ≡ true ↔ length self.old + length bytes.now ≤ 16384 }
    {
        if bytes.len() > ROOM - self.len {
            return false;
        }
        copy_in(&mut self.bytes, self.len, bytes);
        self.len += bytes.len();
        true
    }

    /// Takes all bytes away.
    pub fn clear(&mut self)
        ensures { self.new ≡ [] }
    {
        self.len = 0;
    }

    /// The bytes.
    pub fn bytes(&self) -> &[u8]
        ensures { result.now ≡ self.now }
    {
        &self.bytes[..self.len]
    }
}
