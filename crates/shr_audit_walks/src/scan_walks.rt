// SPDX-License-Identifier: GPL-2.0-only
//! Whether each walk of a report is lawful.

ghost use Rattle.std.specs.Prelude.{◌≡◌, IfOk, map};
ghost use Rattle.std.specs.Bool.{Decides};
ghost use Rattle.shr_model.specs.Walks.{place_in};
ghost use Rattle.shr_audit_formed.specs.Each.{EachItem};
ghost use Rattle.shr_laws.specs.LawfulWalk.{AreScansOf, IsLawfulWalk};
ghost use Rattle.shr_laws.specs.Numbers.{HasNumbers};
ghost use Rattle.shr_laws.specs.Parts.{EachWalk};
ghost use Rattle.shr_audit_passes.specs.Scans.{made_of_scan};
ghost use Rattle.shr_audit_walks.specs.ScanWalks.{AreLawful, IsCaseKnown, IsScannedAt};

use crate::scan_table::Scans;
use shr_audit_case::case::Case;
use shr_audit_case::met::Met;
use shr_audit_passes::alone::pass_of;
use shr_audit_passes::counts::are_counts;
use shr_audit_passes::kinds::{are_kinds, are_stops};
use shr_audit_passes::met::cache_of;
use shr_audit_passes::scans::{ScanSeen, are_scans_of};
use shr_audit_passes::shape::is_shaped;
use shr_base::attempts::Attempt;
use shr_base::memory::Memory;
use shr_base::places::Place;
use shr_base::scripts::{CacheDecl, Script};
use shr_base::walks::{PassRecord, WalkRecord};
use shr_laws::report::Report;
use std::alloc::Global;

/// What is known of a report before its walks are tested: what its journals leave, which declaration
/// each lookup met, and the Scan entries of each pass.
#[derive(Clone, Copy)]
pub struct Known<'a> {
    pub script: &'a Script,
    pub report: &'a Report,
    pub case: &'a Case,
    pub met: &'a Met,
    pub scans: &'a Scans,
}

// The place of an id on the walk's node and in its group.
fn place_in(walk: &WalkRecord, id: u16) -> Place
    ensures { result ≡ place_in walk.now id }
{
    Place {
        id,
        node: walk.node,
        group: walk.group,
    }
}

// Whether these Scan entries are those of a pass of a walk.
fn are_scans_in(walk: &WalkRecord, decl: &CacheDecl, pass: &PassRecord, scans: &[ScanSeen]) -> bool
    ensures { Decides result (AreScansOf walk.now.priority decl.now pass.now
        (map made_of_scan scans.now)) }
{
    let told = are_scans_of(walk.priority, decl, pass, scans);
    told
}

// Whether the Scan entries of the walk with this number of a worker at the place of an attempt are
// those of its pass, if one ran.
fn is_scanned_at(known: &Known, worker: u16, n: usize, walk: &WalkRecord, attempt: &Attempt) -> bool
    requires { IsCaseKnown known.now }
    ensures { Decides result (IsScannedAt known.now.script.now known.now.report.now
        worker n walk.now attempt.now) }
{
    let Some(pass) = pass_of(&attempt.outcome()) else {
        return true;
    };
    let Some(decl) = cache_of(known.script, known.report, known.met, attempt) else {
        return true;
    };
    let place = place_in(walk, attempt.id);
    let scans = known.scans.of_pass(worker, n as u64, place);
    are_scans_in(walk, decl, &pass, scans)
}

// Whether so it is with each pass of a walk.
fn are_scanned(known: &Known, worker: u16, n: usize, walk: &WalkRecord) -> bool
    requires { IsCaseKnown known.now }
    ensures { Decides result (EachItem (IsScannedAt known.now.script.now known.now.report.now
        worker n walk.now) walk.now.attempts.items) }
{
    for attempt in walk.attempts() {
        if !is_scanned_at(known, worker, n, walk, attempt) {
            return false;
        }
    }
    true
}

/// Whether the walk with this number of a worker is lawful.
pub fn is_lawful_walk(
    alloc: Global,
    known: &Known,
    worker: u16,
    n: usize,
    walk: &WalkRecord,
) -> Result<bool, Memory>
    requires { IsCaseKnown known.now }
    ensures { IfOk result (λ b. Decides b (IsLawfulWalk known.now.script.now known.now.report.now
        worker n walk.now)) }
{
    if !is_shaped(alloc, known.script, walk)? {
        return Ok(false);
    }
    if !are_kinds(known.script, known.report, known.met, walk) {
        return Ok(false);
    }
    if !are_stops(known.script, known.report, known.met, walk) {
        return Ok(false);
    }
    if !are_counts(known.case, known.report, walk) {
        return Ok(false);
    }
    let scanned = are_scanned(known, worker, n, walk);
    Ok(scanned)
}

// Whether each of these walks of a worker is.
fn are_lawful(
    alloc: Global,
    known: &Known,
    worker: u16,
    walks: &[WalkRecord],
) -> Result<bool, Memory>
    requires { IsCaseKnown known.now }
    ensures { IfOk result (λ b. Decides b (AreLawful known.now.script.now known.now.report.now
        worker walks.now)) }
{
    for n in 0..walks.len() {
        if !is_lawful_walk(alloc, known, worker, n, &walks[n])? {
            return Ok(false);
        }
    }
    Ok(true)
}

/// Whether each walk of a report is lawful.
pub fn are_walks_each(alloc: Global, known: &Known) -> Result<bool, Memory>
    requires known { IsCaseKnown known.now }
    requires numbers { HasNumbers known.now.report.now }
    ensures { IfOk result (λ b. Decides b (EachWalk known.now.report.now
        (IsLawfulWalk known.now.script.now known.now.report.now))) }
{
    let parts = known.report.workers.as_slice();
    for worker in 0..parts.len() {
        if !are_lawful(alloc, known, worker as u16, parts[worker].walks.as_slice())? {
            return Ok(false);
        }
    }
    Ok(true)
}
