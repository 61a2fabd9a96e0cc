// SPDX-License-Identifier: GPL-2.0-only
//! Whether a whole report is well formed.

ghost use Rattle.std.specs.Prelude.{◌<◌, ◌^◌};
ghost use Rattle.std.specs.Bool.{Decides};
ghost use Rattle.shr_laws.specs.WellFormed.{IsBitWord, IsWellFormed};
ghost use Rattle.shr_audit_formed.specs.Formed.{AreCarriesFormed, AreHeadsFormed, AreListsFormed, AreMapsPrinted, AreOthersFormed, ArePartsFormed, AreTablesFormed, AreWalksFormed, IsLastFormed, IsPartFormed};

use crate::lists::{lists_are_well, lists_stand};
use crate::maps::maps_stand;
use crate::parts::{
    carries_are_of, carries_stand, carries_stand_by_place, isolations_are_of, isolations_stand,
    lend_words, plains_are_of, plains_stand, walks_are_of, walks_are_well, walks_stand,
};
use crate::tables::{
    amounts_are_well, amounts_rise, are_names, are_paths, bits_fit, lookups_fit,
    pool_amounts_are_well, pool_fits, tree_fits, units_are_entered, units_stand, uses_stand,
};
use shr_base::ends::WorkerPart;
use shr_base::walks::{Carry, Isolation, PlainWalk, WalkRecord};
use shr_laws::report::Report;

// Whether the walks of a worker are as those that are printed.
fn are_walks_well(walks: &[WalkRecord], worker: usize, answers: usize) -> bool
    ensures { Decides result (AreWalksFormed worker answers walks.now) }
{
    if !walks_are_well(walks) {
        return false;
    }
    if !walks_are_of(walks, worker, answers) {
        return false;
    }
    let stand = walks_stand(walks);
    stand
}

// The same of its carries.
fn are_carries_well(carries: &[Carry], worker: usize, answers: usize) -> bool
    ensures { Decides result (AreCarriesFormed worker answers carries.now) }
{
    if !carries_are_of(carries, worker, answers) {
        return false;
    }
    if !carries_stand(carries) {
        return false;
    }
    let stand = carries_stand_by_place(carries);
    stand
}

// The same of its walks of the pools, and of its isolations.
fn are_others_well(
    plains: &[PlainWalk],
    isolations: &[Isolation],
    worker: usize,
    answers: usize,
) -> bool
    ensures { Decides result (AreOthersFormed worker answers plains.now isolations.now) }
{
    if !plains_are_of(plains, worker, answers) {
        return false;
    }
    if !plains_stand(plains) {
        return false;
    }
    if !isolations_are_of(isolations, worker, answers) {
        return false;
    }
    let stand = isolations_stand(isolations);
    stand
}

// Whether the part of a worker is as one that is printed.
fn is_part_well(worker: usize, part: &WorkerPart) -> bool
    ensures { Decides result (IsPartFormed worker part.now) }
{
    let answers = part.answers.as_slice();
    if !lend_words(answers) {
        return false;
    }
    if !are_walks_well(part.walks.as_slice(), worker, answers.len()) {
        return false;
    }
    if !are_carries_well(part.carries.as_slice(), worker, answers.len()) {
        return false;
    }
    let others = are_others_well(
        part.plain.as_slice(),
        part.isolations.as_slice(),
        worker,
        answers.len(),
    );
    others
}

// Whether each part is.
fn are_parts_well(parts: &[WorkerPart]) -> bool
    ensures { Decides result (ArePartsFormed parts.now) }
{
    for worker in 0..parts.len() {
        if !is_part_well(worker, &parts[worker]) {
            return false;
        }
    }
    true
}

// Whether the last part has an answer, if there is one.
fn is_last_well(parts: &[WorkerPart]) -> bool
    ensures { Decides result (IsLastFormed parts.now) }
{
    if parts.is_empty() {
        return true;
    }
    parts[parts.len() - 1].answers.len() > 0
}

// Whether what stands before the workers is as it is printed, and there are no more of these than have
// numbers.
fn are_heads_well(report: &Report) -> bool
    ensures { Decides result (AreHeadsFormed report.now) }
{
    if report.version != 1 && report.version != 2 {
        return false;
    }
    if report.workers.len() > 0x1_0000 {
        return false;
    }
    if !are_paths(report.groups.as_slice()) {
        return false;
    }
    if !are_names(report.caches.as_slice()) {
        return false;
    }
    pool_fits(report.pool.as_slice());
    tree_fits(report.tree.as_slice());
    let pools = are_names(report.pools.as_slice());
    pools
}

// Whether the lists and the pools on nodes are.
fn are_lists_well(report: &Report) -> bool
    ensures { Decides result (AreListsFormed report.now) }
{
    if !lists_are_well(report.places.as_slice()) {
        return false;
    }
    if !lists_stand(report.places.as_slice()) {
        return false;
    }
    if !units_are_entered(report.units.as_slice()) {
        return false;
    }
    let stand = units_stand(report.units.as_slice());
    stand
}

// Whether the words of bits and the numbers of lookups are.
fn are_maps_well(report: &Report) -> bool
    ensures { Decides result (AreMapsPrinted report.now) }
{
    bits_fit(report.maps.as_slice());
    lookups_fit(report.lookups.as_slice());
    if report.lookups.len() != report.ids as usize {
        return false;
    }
    let units = if report.version == 1 {
        1
    } else {
        (report.ids as usize + 63) / 64
    };
    let stand = maps_stand(
        report.maps.as_slice(),
        report.nodes,
        report.groups.len(),
        units,
    );
    stand
}

// Whether the other tables are.
fn are_tables_well(report: &Report) -> bool
    ensures { Decides result (AreTablesFormed report.now) }
{
    if !amounts_are_well(report.deferred.as_slice()) {
        return false;
    }
    if !amounts_rise(report.deferred.as_slice()) {
        return false;
    }
    if !uses_stand(report.uses.as_slice()) {
        return false;
    }
    if !pool_amounts_are_well(report.pool_deferred.as_slice()) {
        return false;
    }
    let rise = amounts_rise(report.pool_deferred.as_slice());
    rise
}

// Its single numbers have the ranges of their types.
fn numbers_fit(nodes: u8, ids: u16, added: u64, freed: u64, listed: u64)
    ensures sizes { (nodes < 2 ^ 8) × (ids < 2 ^ 16) }
    ensures totals { IsBitWord added × IsBitWord freed × IsBitWord listed }
{}

/// Whether a report is well formed, so that its text determines it. It goes through all of the report
/// once.
pub fn is_well_formed(report: &Report) -> bool
    ensures { Decides result (IsWellFormed report.now) }
{
    numbers_fit(
        report.nodes,
        report.ids,
        report.added,
        report.freed,
        report.listed,
    );
    if !are_heads_well(report) {
        return false;
    }
    if !are_parts_well(report.workers.as_slice()) {
        return false;
    }
    if !is_last_well(report.workers.as_slice()) {
        return false;
    }
    if !are_lists_well(report) {
        return false;
    }
    if !are_maps_well(report) {
        return false;
    }
    let tables = are_tables_well(report);
    tables
}
