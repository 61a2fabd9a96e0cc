// SPDX-License-Identifier: GPL-2.0-only
//! Closed lists, charges of workers and puts, counted once.

ghost use Rattle.std.specs.Prelude.{◌≡◌, ℕ, ◌+◌, ◌<◌, List, [], ◌∷◌, ◌++◌, length, filter, get_or, sum_by, IfOk};
ghost use Rattle.shr_base.specs.declared.journals.UseStep.{UseStep};
ghost use Rattle.shr_base.specs.declared.scripts.Command.{Command};
ghost use Rattle.shr_base.specs.declared.scripts.WorkerScript.{WorkerScript};
ghost use Rattle.shr_model.specs.Commands.{is_put};
ghost use Rattle.shr_model.specs.Items.{is_closed, is_closing};
ghost use Rattle.shr_laws.specs.Parts.{puts_of};
ghost use Rattle.shr_audit_reasons.specs.Counted.{AreCounted, IsCapped, IsCountOf, closed_of, is_of_kind};

use shr_base::ends::PlaceEnd;
use shr_base::journals::{Entry, UseStep};
use shr_base::memory::Memory;
use shr_base::scripts::{Command, Script, WorkerScript};
use shr_laws::report::Report;
use std::alloc::Global;

/// What is counted once of a script and a report. A count stops at 4,294,967,295.
#[derive(Drop)]
pub struct Counted {
    /// Whether each list is closed, by its index.
    pub closed: Vec<bool>,
    /// The charges of each worker that has a part.
    pub ups: Vec<u32>,
    /// Its uncharges.
    pub downs: Vec<u32>,
    /// The puts of the script.
    pub puts: u32,
}

fn is_closing(entry: &Entry) -> bool
    ensures { result ≡ is_closing entry.now }
{
    matches!(entry, Entry::Closed)
}

// Whether a Closed stands in a journal.
fn is_closed(entries: &[Entry]) -> bool
    ensures { result ≡ is_closed entries.now }
{
    for entry in entries {
        if is_closing(entry) {
            return true;
        }
    }
    false
}

// Whether each list is closed.
fn closed_of(alloc: Global, ends: &[PlaceEnd]) -> Result<Vec<bool>, Memory>
    ensures { IfOk result (λ closed. closed.items ≡ closed_of ends.now) }
{
    let mut closed = Vec::new(alloc);
    for end in ends {
        closed.push(is_closed(end.entries.as_slice()))?;
    }
    Ok(closed)
}

// One more.
fn one_more(n: u32) -> u32
    ensures { (count : ℕ) → IsCapped n count → IsCapped result (count + 1) }
{
    if n < u32::MAX { n + 1 } else { n }
}

// Nothing counted, for so many.
fn zeros(alloc: Global, size: usize) -> Result<Vec<u32>, Memory>
    ensures { IfOk result (λ counts. (length counts.items ≡ size) ×
        ((i : ℕ) → get_or counts.items i 0 ≡ 0)) }
{
    let mut counts = Vec::new(alloc);
    for _i in 0..size {
        counts.push(0)?;
    }
    Ok(counts)
}

// Whether an operation is of a kind.
fn is_of_kind(kind: bool, step: UseStep) -> bool
    ensures { result ≡ is_of_kind kind step.up }
{
    if kind { step.up } else { !step.up }
}

// Notes an operation, if it is of the kind that is counted.
fn note_step(kind: bool, counts: &mut Vec<u32>, step: UseStep)
    ensures count { length counts.new.items ≡ length counts.old.items }
    ensures noted { (before : List UseStep) → AreCounted kind before counts.old.items
        → AreCounted kind (before ++ step ∷ []) counts.new.items }
{
    if !is_of_kind(kind, step) {
        return;
    }
    let worker = step.by.worker as usize;
    if worker < counts.len() {
        let more = one_more(counts[worker]);
        counts[worker] = more;
    }
}

// The operations of a kind of each of so many workers.
fn count_steps(
    alloc: Global,
    kind: bool,
    steps: &[UseStep],
    size: usize,
) -> Result<Vec<u32>, Memory>
    ensures { IfOk result (λ counts. (length counts.items ≡ size) ×
        AreCounted kind steps.now counts.items) }
{
    let mut counts = zeros(alloc, size)?;
    for step in steps {
        note_step(kind, &mut counts, *step);
    }
    Ok(counts)
}

fn is_put(command: &Command) -> bool
    ensures { result ≡ is_put command.now }
{
    matches!(command, Command::Put { .. })
}

// One command more: the puts among those before it, and it.
fn add_put(puts: u32, command: &Command) -> u32
    ensures { (before : List Command) (count : ℕ)
        → IsCapped puts (count + length (filter is_put before))
        → IsCapped result (count + length (filter is_put (before ++ command.now ∷ []))) }
{
    if is_put(command) {
        one_more(puts)
    } else {
        puts
    }
}

// The puts among these commands, with those before them.
fn add_puts(before: u32, commands: &[Command]) -> u32
    ensures { (count : ℕ) → IsCapped before count
        → IsCapped result (count + length (filter is_put commands.now)) }
{
    let mut puts = before;
    for command in commands {
        puts = add_put(puts, command);
    }
    puts
}

// The puts of one worker more.
fn add_worker(puts: u32, worker: &WorkerScript) -> u32
    ensures { (before : List WorkerScript)
        → IsCapped puts (sum_by (λ (w : WorkerScript). length (filter is_put w.commands.items))
        before)
        → IsCapped result (sum_by (λ (w : WorkerScript). length (filter is_put w.commands.items))
        (before ++ worker.now ∷ [])) }
{
    add_puts(puts, worker.commands.as_slice())
}

// The puts of a script.
fn count_puts(script: &Script) -> u32
    ensures { IsCapped result (puts_of script.now) }
{
    let mut puts = 0;
    for worker in script.workers.as_slice() {
        puts = add_worker(puts, worker);
    }
    puts
}

impl Counted {
    /// Counts all once. Want of memory alone is an error.
    pub fn of(alloc: Global, script: &Script, report: &Report) -> Result<Counted, Memory>
        ensures { IfOk result (λ c. IsCountOf script.now report.now c) }
    {
        let size = report.workers.len();
        let closed = closed_of(alloc, report.places.as_slice())?;
        let ups = count_steps(alloc, true, report.uses.as_slice(), size)?;
        let downs = count_steps(alloc, false, report.uses.as_slice(), size)?;
        let puts = count_puts(script);
        Ok(Counted {
            closed,
            ups,
            downs,
            puts,
        })
    }
}
