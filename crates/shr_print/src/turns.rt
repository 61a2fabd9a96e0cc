// SPDX-License-Identifier: GPL-2.0-only
//! A section that is printed by threads, in one turn or several.

ghost use Rattle.std.specs.Prelude.{◌≡◌, ◌≤◌, IfOk};
ghost use Rattle.shr_outside.specs.Paper.{Prints};
ghost use Rattle.shr_print.specs.Cuts.{AreCuts};

use crate::crew::Crew;
use crate::cutter::Cutter;
use crate::measure::Measure;
use crate::parts::print_turn;
use crate::section::Section;
use shr_base::memory::Memory;
use shr_outside::outside::Sink;
use shr_outside::paper::Paper;
use std::alloc::Global;
use std::thread::Threads;

// Where to cut a section, so that a part weighs about this.
fn cuts<S: Section>(alloc: Global, section: &S, share: usize) -> Result<Vec<usize>, Memory>
    ensures { IfOk result (λ cuts. AreCuts cuts.items (S.size section.now)) }
{
    let mut cutter = Cutter::new(alloc, share)?;
    section.cut(&mut cutter)?;
    cutter.end()
}

// What a part weighs: in each turn a thread has one. It is rounded up, so that there are no more parts
// than that.
fn share<R: Threads>(crew: &Crew<R>, whole: Measure) -> usize {
    let turns = (whole.lines / crew.turn.max(1)).max(1);
    let parts = turns.saturating_mul(crew.threads).max(1);
    (whole.weight / parts).saturating_add(1)
}

// The bytes of a line, which few are longer than: a part whose room is enough isn't moved as it grows,
// and room that isn't written on takes no memory.
const A_LINE: usize = 64;

// Prints the parts between the cuts, a part of each thread in one turn.
fn print_turns<R: Threads, S: Section + Sync, K: Sink>(
    crew: &Crew<R>,
    section: &S,
    out: &mut Paper<K>,
    cuts: &[usize],
    room: usize,
)
    requires { AreCuts cuts.now (S.size section.now) }
    ensures printed { Prints K.written K.faults out.old out.new
        (S.text section.now 0 (S.size section.now)) }
    ensures known { S.known section.now 0 (S.size section.now) }
{
    let last = cuts.len() - 1;
    let mut at = 0;
    while at < last {
        let end = at + crew.threads.max(1).min(last - at);
        print_turn(crew, section, out, &cuts[at..end + 1], room);
        at = end;
    }
}

// The fewest lines of a section that is printed by threads. A thread costs some 30 microseconds, in
// which some hundreds of lines are printed.
const MANY: usize = 4000;

/// Prints a section, by threads where it is long and there are two or more. Want of memory for its cuts
/// leaves it to this one.
pub(crate) fn print_section<R: Threads, S: Section + Sync, K: Sink>(
    crew: &Crew<R>,
    section: &S,
    out: &mut Paper<K>,
)
    ensures printed { Prints K.written K.faults out.old out.new
        (S.text section.now 0 (S.size section.now)) }
    ensures known { S.known section.now 0 (S.size section.now) }
{
    let whole = section.measure();
    if crew.threads < 2 || whole.lines < MANY {
        return section.print_all(out);
    }
    let share = share(crew, whole);
    match cuts(crew.alloc, section, share) {
        Ok(cuts) => print_turns(
            crew,
            section,
            out,
            cuts.as_slice(),
            share.saturating_mul(A_LINE),
        ),
        Err(Memory) => section.print_all(out),
    }
}
