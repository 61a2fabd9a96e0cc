// SPDX-License-Identifier: GPL-2.0-only
//! Whether two lists have the same serials, and whether none comes twice.

ghost use Rattle.std.specs.Prelude.{◌≡◌, ◌≢◌, true, false, map, IsPermutation, IfOk};
ghost use Rattle.std.specs.Bool.{Decides};
ghost use Rattle.std.specs.List.Sorted.{IsNonDecreasingBy};
ghost use Rattle.shr_model.specs.Bag.{AreDistinct};
ghost use Rattle.shr_audit_lists.specs.Keys.{command_key, serial_key};

use shr_base::memory::Memory;
use shr_base::places::Serial;

// The numbers of a worker and of its command as one.
fn key_of(worker: u16, command: u32) -> u64
    ensures { result ≡ command_key worker command }
{
    0x1_0000_0000 * worker as u64 + command as u64
}

// Whether two serials are the same. The same is so of their keys.
fn is_serial(p: Serial, q: Serial) -> bool
    ensures same { Decides result (p ≡ q) }
    ensures keys { Decides result (serial_key p ≡ serial_key q) }
{
    p.worker == q.worker && p.command == q.command
}

// The same serials in the order of their keys.
fn sorted(serials: Vec<Serial>) -> Result<Vec<Serial>, Memory>
    ensures same { IfOk result (λ v. IsPermutation serials.items v.items) }
    ensures order { IfOk result (λ v. IsNonDecreasingBy serial_key v.items) }
{
    let mut serials = serials;
    serials.sort_by_key(|s| key_of(s.worker, s.command))?;
    Ok(serials)
}

// Whether no serial comes twice in a sorted list.
fn are_apart(serials: &[Serial]) -> bool
    requires { IsNonDecreasingBy serial_key serials.now }
    ensures { Decides result (AreDistinct serials.now) }
{
    for i in 1..serials.len() {
        let (before, here) = (serials[i - 1], serials[i]);
        if is_serial(before, here) {
            return false;
        }
    }
    true
}

// Whether two lists are the same, which is so if their keys are.
fn are_same(a: &[Serial], b: &[Serial]) -> bool
    ensures same { result ≡ true → a.now ≡ b.now }
    ensures other { result ≡ false → map serial_key a.now ≢ map serial_key b.now }
{
    if a.len() != b.len() {
        return false;
    }
    for i in 0..a.len() {
        let (p, q) = (a[i], b[i]);
        if !is_serial(p, q) {
            return false;
        }
    }
    true
}

/// Whether no serial comes twice in the first list, and the second has the same serials in some
/// order. It sorts both.
pub fn is_bag_of(added: Vec<Serial>, parts: Vec<Serial>) -> Result<bool, Memory>
    ensures { IfOk result (λ b. Decides b (AreDistinct added.items
        × IsPermutation added.items parts.items)) }
{
    let ups = sorted(added)?;
    let downs = sorted(parts)?;
    if !are_apart(ups.as_slice()) {
        return Ok(false);
    }
    let same = are_same(ups.as_slice(), downs.as_slice());
    Ok(same)
}
