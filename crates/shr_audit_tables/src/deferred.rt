// SPDX-License-Identifier: GPL-2.0-only
//! The law on deferred words: each is what passes and carries gave less what they took.

ghost use Rattle.std.specs.Prelude.{◌≡◌, ◌<◌, ◌^◌, OnOk, IfOk, sum_by};
ghost use Rattle.std.specs.Bool.{Decides};
ghost use Rattle.shr_base.specs.declared.ends.WorkerPart.{WorkerPart};
ghost use Rattle.shr_base.specs.declared.scripts.Command.TheVariants.{Offline};
ghost use Rattle.shr_laws.specs.Deferred.{HasCarried, IsCarryRight, IsDeferredLawful};
ghost use Rattle.shr_laws.specs.Numbers.{HasNumbers};
ghost use Rattle.shr_laws.specs.Parts.{IsThere, parents_of};
ghost use Rattle.shr_laws.specs.WellFormed.{IsWellFormed};
ghost use Rattle.shr_audit_formed.specs.Each.{EachItem};
ghost use Rattle.shr_audit_case.specs.Deferred.{GainsAtEach};
ghost use Rattle.shr_audit_tables.specs.Deferred.{given_by_worker, taken_by, AreWordsRight};

use shr_audit_case::deferred::{note_carries, note_walks, note_words};
use shr_audit_case::moves::{Move, is_settled};
use shr_audit_case::serials::{answer_at, command_at};
use shr_base::ends::WorkerPart;
use shr_base::memory::Memory;
use shr_base::places::Place;
use shr_base::replies::Reply;
use shr_base::scripts::{Command, Script};
use shr_base::walks::Carry;
use shr_laws::report::Report;
use std::alloc::Global;

// The numbers of parents have the range of their type.
fn parents_fit(parents: &[u16])
    ensures { EachItem (λ n. n < 2 ^ 16) parents.now }
{
    for parent in parents {
        let _parent = *parent;
    }
}

// Adds what a worker's passes and carries gave, and what they took.
fn note_part(moves: &mut Vec<Move>, parents: &[u16], part: &WorkerPart) -> Result<(), Memory>
    ensures { OnOk result (GainsAtEach (given_by_worker parents.now part.now) (taken_by part.now)
        moves.old.items moves.new.items) }
{
    note_walks(moves, part.walks.as_slice())?;
    note_carries(moves, parents, part.carries.as_slice())?;
    Ok(())
}

// The same of all workers.
fn note_parts(moves: &mut Vec<Move>, parents: &[u16], parts: &[WorkerPart]) -> Result<(), Memory>
    ensures { OnOk result (GainsAtEach
        (λ p. sum_by (λ (part : WorkerPart). given_by_worker parents.now part p) parts.now)
        (λ p. sum_by (λ (part : WorkerPart). taken_by part p) parts.now)
        moves.old.items moves.new.items) }
{
    for part in parts {
        note_part(moves, parents, part)?;
    }
    Ok(())
}

// Whether each printed word is what passes and carries gave less what they took.
fn are_words_right(alloc: Global, parents: &[u16], report: &Report) -> Result<bool, Memory>
    requires well { IsWellFormed report.now }
    requires numbers { HasNumbers report.now }
    ensures { IfOk result (λ b. Decides b (AreWordsRight parents.now report.now)) }
{
    parents_fit(parents);
    let mut moves = Vec::new(alloc);
    note_words(&mut moves, report.deferred.as_slice())?;
    note_parts(&mut moves, parents, report.workers.as_slice())?;
    let settled = is_settled(moves)?;
    Ok(settled)
}

// Whether the command is an `offline` of this group.
fn is_offline_of(command: &Command, group: u16) -> bool
    ensures { Decides result (command.now ≡ Offline group) }
{
    match command {
        Command::Offline { group: named } => *named == group,
        _ => false,
    }
}

// Whether the reply says that the deferred words were carried.
fn has_carried(reply: &Reply) -> bool
    ensures { Decides result (HasCarried reply.now) }
{
    match reply {
        Reply::OfflineDone { .. } => true,
        Reply::AlreadyDone { .. } => true,
        _ => false,
    }
}

// Whether a place is one of the tables and the tree of a script.
fn is_there(script: &Script, place: Place) -> bool
    ensures { Decides result (IsThere script.now place) }
{
    place.id < script.ids
        && place.node < script.nodes
        && place.group as usize <= script.groups.len()
}

// Whether a carry is of an `offline` that was answered so, at a place of its group.
fn is_carry_right(script: &Script, report: &Report, carry: &Carry) -> bool
    ensures { Decides result (IsCarryRight script.now report.now carry.now) }
{
    if !is_there(script, carry.place) {
        return false;
    }
    let Some(command) = command_at(script, carry.by) else {
        return false;
    };
    if !is_offline_of(command, carry.place.group) {
        return false;
    }
    let Some(answer) = answer_at(report, carry.by) else {
        return false;
    };
    has_carried(&answer.reply)
}

// Whether each of a worker's carries is.
fn are_carries_right(script: &Script, report: &Report, carries: &[Carry]) -> bool
    ensures { Decides result (EachItem (IsCarryRight script.now report.now) carries.now) }
{
    for carry in carries {
        if !is_carry_right(script, report, carry) {
            return false;
        }
    }
    true
}

// Whether each of those of these workers is.
fn are_all_right(script: &Script, report: &Report, parts: &[WorkerPart]) -> bool
    ensures { Decides result (EachItem (λ (part : WorkerPart).
        EachItem (IsCarryRight script.now report.now) part.carries.items) parts.now) }
{
    for part in parts {
        if !are_carries_right(script, report, part.carries.as_slice()) {
            return false;
        }
    }
    true
}

/// Whether each deferred word of a report is what passes and carries gave less what they took,
/// modulo 2^64, and each carry is of an `offline` that carried it. `parents` are those of the
/// script's groups, the root first. It sorts what passes and carries moved, once.
pub fn is_deferred_lawful(
    alloc: Global,
    parents: &[u16],
    script: &Script,
    report: &Report,
) -> Result<bool, Memory>
    requires parents { parents.now ≡ parents_of script.now }
    requires well { IsWellFormed report.now }
    requires numbers { HasNumbers report.now }
    ensures { IfOk result (λ b. Decides b (IsDeferredLawful script.now report.now)) }
{
    if !are_all_right(script, report, report.workers.as_slice()) {
        return Ok(false);
    }
    let right = are_words_right(alloc, parents, report)?;
    Ok(right)
}
