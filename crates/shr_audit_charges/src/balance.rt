// SPDX-License-Identifier: GPL-2.0-only
//! Keys that go up and keys that go down, and whether each does so equally often.

ghost use Rattle.std.specs.Prelude.{◌≡◌, ◌++◌, ◌<◌, ◌^◌, map, length, OnOk, IfOk};
ghost use Rattle.std.specs.Bool.{Decides};
ghost use Rattle.shr_audit_charges.specs.Balance.{AreBalanced, unit};

use shr_audit_case::moves::{Move, is_settled};
use shr_base::memory::Memory;
use std::alloc::Global;

// A key that goes up, or down, by one.
fn unit(up: bool, key: u64) -> Move
    ensures { result ≡ unit up key }
{
    if up {
        Move {
            key,
            up: 1,
            down: 0,
        }
    } else {
        Move {
            key,
            up: 0,
            down: 1,
        }
    }
}

// Adds that each of these keys goes up, or down.
fn note_units(moves: &mut Vec<Move>, keys: &[u64], up: bool) -> Result<(), Memory>
    ensures { OnOk result (moves.new.items ≡ moves.old.items ++ map (unit up) keys.now) }
{
    for key in keys {
        moves.push(unit(up, *key))?;
    }
    Ok(())
}

// There are no more keys than memory has bytes.
fn are_few(keys: &[u64])
    ensures { length keys.now < 2 ^ 64 }
{
    let _count = keys.len();
}

/// Whether each key goes up as often as it goes down. It sorts all of them once.
pub fn are_balanced(alloc: Global, ups: &[u64], downs: &[u64]) -> Result<bool, Memory>
    ensures { IfOk result (λ b. Decides b (AreBalanced ups.now downs.now)) }
{
    are_few(ups);
    are_few(downs);
    let mut moves = Vec::new(alloc);
    note_units(&mut moves, ups, true)?;
    note_units(&mut moves, downs, false)?;
    let settled = is_settled(moves)?;
    Ok(settled)
}
