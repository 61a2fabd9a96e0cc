// SPDX-License-Identifier: GPL-2.0-only
//! The lines of the operations on groups' usages.

ghost use Rattle.std.specs.Prelude.{◌≡◌, ◌≤◌, ◌+◌, ◌++◌, ◌∷◌, [], drop, flat_map, length};
ghost use Rattle.shr_outside.specs.Paper.{Prints};
ghost use Rattle.std.specs.List.{AllByRecursion};
ghost use Rattle.shr_laws.specs.Lines.{spaced, numeral};
ghost use Rattle.shr_laws.specs.Numbers.{IsSerialNumbered, IsUseNumbered};
ghost use Rattle.shr_laws.specs.Text.{use_line};

use crate::piece::Piece;
use shr_base::journals::UseStep;
use shr_base::places::Serial;
use shr_outside::outside::Sink;
use shr_outside::paper::Paper;

// The end of an operation's line: the command that made it.
#[inline(always)]
fn end_with_command(piece: &mut Piece, rest: usize, by: Serial) -> usize
    requires { (43 ≤ rest) × (rest ≤ 512) }
    ensures text { drop result piece.new ≡ spaced (numeral by.worker ∷ numeral by.command ∷ [])
        ++ 10 ∷ drop rest piece.old }
    ensures start { (rest ≤ result + 43) × (result ≤ rest) }
    ensures numbers { IsSerialNumbered by }
{
    let start = piece.byte(rest, b'\n');
    let start = piece.number(start, by.command as u64);
    piece.number(start, by.worker as u64)
}

// The line of an operation on a group's usage.
#[inline(always)]
fn use_step(piece: &mut Piece, rest: usize, step: &UseStep) -> usize
    requires { (128 ≤ rest) × (rest ≤ 512) }
    ensures text { drop result piece.new ≡ use_line step.now ++ drop rest piece.old }
    ensures start { (rest ≤ result + 128) × (result ≤ rest) }
    ensures numbers { IsUseNumbered step.now }
{
    let start = end_with_command(piece, rest, step.by);
    let start = piece.signed(start, step.found);
    let start = piece.sign(start, step.up);
    let start = piece.number(start, step.operation as u64);
    let start = piece.number(start, step.group as u64);
    piece.exactly(start, b"use")
}

// The most operations whose lines are one piece.
const FEW: usize = 4;

// The lines of a few operations, from the last to the first.
fn few_uses(piece: &mut Piece, steps: &[UseStep]) -> usize
    requires { length steps.now ≤ 4 }
    ensures text { drop result piece.new ≡ flat_map use_line steps.now }
    ensures start { result ≤ 512 }
    ensures numbers { AllByRecursion IsUseNumbered steps.now }
{
    let mut start = piece.nothing();
    let mut left = steps.len();
    while left > 0 {
        left -= 1;
        start = use_step(piece, start, &steps[left]);
    }
    start
}

/// The lines of operations, one after the other.
pub fn put_uses<K: Sink>(out: &mut Paper<K>, steps: &[UseStep])
    ensures printed { Prints K.written K.faults out.old out.new (flat_map use_line steps.now) }
    ensures numbers { AllByRecursion IsUseNumbered steps.now }
{
    let mut piece = Piece::new();
    let mut done = 0;
    while done < steps.len() {
        let few = FEW.min(steps.len() - done);
        let start = few_uses(&mut piece, &steps[done..done + few]);
        piece.put(start, out);
        done += few;
    }
}
