// SPDX-License-Identifier: GPL-2.0-only
//! Amounts that go up and down at keys.

ghost use Rattle.std.specs.Prelude.{◌≡◌, true, ◌↔◌, IfOk};
ghost use Rattle.shr_audit_case.specs.Moves.{IsSettled, settles};

use shr_base::memory::Memory;

/// So much goes up and down at a key.
#[derive(Clone, Copy, Debug, PartialEq, Eq)]
pub struct Move {
    pub key: u64,
    pub up: u64,
    pub down: u64,
}

// Whether what goes up in each run of one key is what goes down, modulo 2^64.
fn runs_settle(moves: &[Move]) -> bool
    ensures { result ≡ settles 0 0 0 moves.now }
{
    let mut key = 0u64;
    let mut up = 0u64;
    let mut down = 0u64;
    for m in moves {
        if m.key == key {
            up = up.wrapping_add(m.up);
            down = down.wrapping_add(m.down);
        } else {
            if up != down {
                return false;
            }
            key = m.key;
            up = m.up;
            down = m.down;
        }
    }
    up == down
}

/// Whether at each key what goes up is what goes down, modulo 2^64.
pub fn is_settled(moves: Vec<Move>) -> Result<bool, Memory>
    ensures { IfOk result (λ b. (b ≡ true) ↔ IsSettled moves.items) }
{
    let mut moves = moves;
    moves.sort_by_key(|m| m.key)?;
    Ok(runs_settle(moves.as_slice()))
}
