// SPDX-License-Identifier: GPL-2.0-only
//! The lines of a command behind its answer: its isolations, its walks, its carries and its walks of
//! the pools.

ghost use Rattle.std.specs.Prelude.{◌≡◌, ◌<◌, ◌≤◌, ◌^◌, ◌+◌, flat_map, length};
ghost use Rattle.shr_outside.specs.Paper.{Prints};
ghost use Rattle.std.specs.List.{AllByRecursion, prefix_len};
ghost use Rattle.shr_laws.specs.Numbers.{IsWalkNumbered, IsCarryNumbered, IsPlainNumbered, IsIsolationNumbered};
ghost use Rattle.shr_laws.specs.Lines.{numbered};
ghost use Rattle.shr_report.specs.Printing.{logs_from, IsPrintedWithin, AreNumberedTo};
ghost use Rattle.shr_laws.specs.WalkText.{walk_lines, carry_line, plain_lines, isolation_line};
ghost use Rattle.shr_laws.specs.Text.{is_walk_of, is_carry_of, is_plain_of, is_isolation_of, log_lines, after_command};

use crate::lines::put_amount;
use crate::piece::Piece;
use crate::plain::{isolation, plain_walk};
use crate::walks::walk;
use shr_base::ends::WorkerPart;
use shr_base::walks::{Carry, Isolation, PlainWalk, WalkRecord};
use shr_outside::outside::Sink;
use shr_outside::paper::Paper;

/// How many isolations, walks, carries and walks of the pools of a worker are printed.
#[derive(Clone, Copy)]
pub struct Printed {
    pub isolations: usize,
    pub walks: usize,
    pub carries: usize,
    pub plain: usize,
}

// How many walks at the front are of a command.
fn count_walks(walks: &[WalkRecord], command: usize) -> usize
    ensures count { result ≡ prefix_len (is_walk_of command) walks.now }
    ensures within { result ≤ length walks.now }
{
    walks
        .iter()
        .take_while(|w| w.by.command as usize == command)
        .count()
}

// How many carries at the front are of a command.
fn count_carries(carries: &[Carry], command: usize) -> usize
    ensures count { result ≡ prefix_len (is_carry_of command) carries.now }
    ensures within { result ≤ length carries.now }
{
    carries
        .iter()
        .take_while(|c| c.by.command as usize == command)
        .count()
}

// How many walks of the pools at the front are of a command.
fn count_plain(walks: &[PlainWalk], command: usize) -> usize
    ensures count { result ≡ prefix_len (is_plain_of command) walks.now }
    ensures within { result ≤ length walks.now }
{
    walks
        .iter()
        .take_while(|w| w.by.command as usize == command)
        .count()
}

// How many isolations at the front are of a command.
fn count_isolations(isolations: &[Isolation], command: usize) -> usize
    ensures count { result ≡ prefix_len (is_isolation_of command) isolations.now }
    ensures within { result ≤ length isolations.now }
{
    isolations
        .iter()
        .take_while(|i| i.by.command as usize == command)
        .count()
}

// Walks, numbered from a first number on.
fn walks<K: Sink>(out: &mut Paper<K>, piece: &mut Piece, first: usize, walks: &[WalkRecord])
    requires { first + length walks.now < 2 ^ 64 }
    ensures printed { Prints K.written K.faults out.old out.new
        (numbered walk_lines first walks.now) }
    ensures numbers { AllByRecursion IsWalkNumbered walks.now }
{
    for (i, w) in walks.iter().enumerate() {
        walk(out, piece, first + i, w);
    }
}

fn carries<K: Sink>(out: &mut Paper<K>, carries: &[Carry])
    ensures printed { Prints K.written K.faults out.old out.new (flat_map carry_line carries.now) }
    ensures numbers { AllByRecursion IsCarryNumbered carries.now }
{
    for c in carries {
        // Its line has no such word: what is read is known to be in its range.
        let _worker = c.by.worker;
        let _command = c.by.command;
        put_amount(out, b"carry", c.place, c.amount);
    }
}

// Walks of the pools, numbered from a first number on.
fn plain<K: Sink>(out: &mut Paper<K>, piece: &mut Piece, first: usize, walks: &[PlainWalk])
    requires { first + length walks.now < 2 ^ 64 }
    ensures printed { Prints K.written K.faults out.old out.new
        (numbered plain_lines first walks.now) }
    ensures numbers { AllByRecursion IsPlainNumbered walks.now }
{
    for (i, w) in walks.iter().enumerate() {
        plain_walk(out, piece, first + i, w);
    }
}

fn isolations<K: Sink>(out: &mut Paper<K>, piece: &mut Piece, isolations: &[Isolation])
    ensures printed { Prints K.written K.faults out.old out.new
        (flat_map isolation_line isolations.now) }
    ensures numbers { AllByRecursion IsIsolationNumbered isolations.now }
{
    for i in isolations {
        isolation(out, piece, i);
    }
}

/// The lines of a command behind its answer, and how much is printed then.
pub fn logs<K: Sink>(
    out: &mut Paper<K>,
    piece: &mut Piece,
    part: &WorkerPart,
    command: usize,
    at: Printed,
) -> Printed
    requires { IsPrintedWithin part.now at }
    ensures printed { Prints K.written K.faults out.old out.new
        (log_lines command (logs_from part.now at)) }
    ensures after { logs_from part.now result ≡ after_command command (logs_from part.now at) }
    ensures within { IsPrintedWithin part.now result }
    ensures numbers { AreNumberedTo part.now at → AreNumberedTo part.now result }
{
    let all_isolations = part.isolations.as_slice();
    let isolated = at.isolations + count_isolations(&all_isolations[at.isolations..], command);
    isolations(out, piece, &all_isolations[at.isolations..isolated]);
    let all_walks = part.walks.as_slice();
    let walked = at.walks + count_walks(&all_walks[at.walks..], command);
    walks(out, piece, at.walks, &all_walks[at.walks..walked]);
    let all_carries = part.carries.as_slice();
    let carried = at.carries + count_carries(&all_carries[at.carries..], command);
    carries(out, &all_carries[at.carries..carried]);
    let all_plain = part.plain.as_slice();
    let plain_walked = at.plain + count_plain(&all_plain[at.plain..], command);
    plain(out, piece, at.plain, &all_plain[at.plain..plain_walked]);
    Printed {
        isolations: isolated,
        walks: walked,
        carries: carried,
        plain: plain_walked,
    }
}
