// SPDX-License-Identifier: GPL-2.0-only
//! Who prints the body of a report.

ghost use Rattle.std.specs.Prelude.{flat_map};
ghost use Rattle.shr_outside.specs.Paper.{Prints};
ghost use Rattle.std.specs.List.{AllByRecursion};
ghost use Rattle.shr_report.specs.Body.{body_lines, IsBodyNumbered};
ghost use Rattle.shr_laws.specs.Numbers.{IsListNumbered};
ghost use Rattle.shr_laws.specs.Text.{place_lines};

use crate::between::put_between;
use crate::entries::place;
use crate::piece::Piece;
use crate::uses::put_uses;
use crate::workers::put_workers;
use shr_base::ends::PlaceEnd;
use shr_laws::report::Report;
use shr_outside::outside::Sink;
use shr_outside::paper::Paper;

/// Who prints the body of a report: all from the workers' parts to the operations. All print the same
/// text; one that has threads may print parts of it side by side.
pub trait Printer {
    /// Prints the body.
    fn body<K: Sink>(&self, out: &mut Paper<K>, report: &Report)
        ensures printed { Prints K.written K.faults out.old out.new (body_lines report.now) }
        ensures numbers { IsBodyNumbered report.now };
}

/// Prints a body from its first line to its last.
#[derive(Clone, Copy)]
pub struct Alone;

impl Printer for Alone {
    fn body<K: Sink>(&self, out: &mut Paper<K>, report: &Report) {
        put_workers(out, report.workers.as_slice());
        put_places(out, report.places.as_slice());
        put_between(out, report);
        put_uses(out, report.uses.as_slice())
    }
}

/// The lists one after the other.
pub fn put_places<K: Sink>(out: &mut Paper<K>, ends: &[PlaceEnd])
    ensures printed { Prints K.written K.faults out.old out.new (flat_map place_lines ends.now) }
    ensures numbers { AllByRecursion IsListNumbered ends.now }
{
    let mut piece = Piece::new();
    for end in ends {
        place(out, &mut piece, end);
    }
}
