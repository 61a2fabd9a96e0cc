// SPDX-License-Identifier: GPL-2.0-only
//! The lines of the workers: each answer with what else stands of its command.

ghost use Rattle.shr_outside.specs.Paper.{Prints};
ghost use Rattle.std.specs.List.{AllByRecursion};
ghost use Rattle.shr_laws.specs.Numbers.{IsPartNumbered};
ghost use Rattle.shr_laws.specs.PartNumbers.{ArePartsWell};
ghost use Rattle.shr_laws.specs.WellFormed.{IsPartWell};
ghost use Rattle.shr_laws.specs.Lines.{numbered};
ghost use Rattle.shr_laws.specs.Text.{worker_lines};

use crate::answers::put_answered;
use crate::logs::{Printed, logs};
use crate::piece::Piece;
use shr_base::ends::WorkerPart;
use shr_outside::outside::Sink;
use shr_outside::paper::Paper;

/// The answers of a worker, each with what else stands of its command.
pub fn put_answers<K: Sink>(out: &mut Paper<K>, worker: usize, part: &WorkerPart)
    ensures printed { Prints K.written K.faults out.old out.new (worker_lines worker part.now) }
    // What is of a command that has no answer isn't printed.
    ensures numbers { IsPartWell worker part.now → IsPartNumbered part.now }
{
    let mut piece = Piece::new();
    let mut at = Printed {
        isolations: 0,
        walks: 0,
        carries: 0,
        plain: 0,
    };
    let answers = part.answers.as_slice();
    for (command, answered) in answers.iter().enumerate() {
        put_answered(out, &mut piece, worker, command, answered);
        at = logs(out, &mut piece, part, command, at);
    }
}

/// The parts of the workers, numbered from 0, one after the other.
pub fn put_workers<K: Sink>(out: &mut Paper<K>, parts: &[WorkerPart])
    ensures printed { Prints K.written K.faults out.old out.new
        (numbered worker_lines 0 parts.now) }
    ensures numbers { ArePartsWell parts.now
        → AllByRecursion IsPartNumbered parts.now }
{
    for (worker, part) in parts.iter().enumerate() {
        put_answers(out, worker, part);
    }
}
