// SPDX-License-Identifier: GPL-2.0-only
//! The Scan entries of a report by their passes.

ghost use Rattle.std.specs.Prelude.{◌≡◌, ℕ, ◌<◌, ◌≤◌, ◌==◌, filter, length, map, slice_get, Some, IfOk};
ghost use Rattle.std.specs.List.Sorted.{IsNonDecreasingBy};
ghost use Rattle.shr_model.specs.Scans.{scans_by};
ghost use Rattle.shr_audit_case.specs.Places.{AreInOrder};
ghost use Rattle.shr_laws.specs.declared.report.Report.{Report};
ghost use Rattle.shr_laws.specs.Numbers.{HasNumbers};
ghost use Rattle.shr_laws.specs.Parts.{journals_of};
ghost use Rattle.shr_audit_passes.specs.declared.scans.ScanSeen.{ScanSeen};
ghost use Rattle.shr_audit_passes.specs.Scans.{made_of_scan};
ghost use Rattle.shr_audit_walks.specs.Keys.{row_key};
ghost use Rattle.shr_audit_walks.specs.ScanRows.{with_key};
ghost use Rattle.shr_audit_walks.specs.ScanTable.{AreScansIn, AreSorted};

use crate::keys::key_of;
use crate::scan_rows::rows_of;
use shr_audit_passes::scans::ScanSeen;
use shr_base::memory::Memory;
use shr_base::places::Place;
use shr_laws::report::Report;
use std::alloc::Global;

/// The Scan entries of a report, those of one pass together and in the order of the journal.
#[derive(Drop)]
pub struct Scans {
    rows: Vec<ScanSeen>,
}

// The pass that a row is of.
fn row_key(row: &ScanSeen) -> u128
    ensures { result ≡ row_key row.now }
{
    key_of(row.worker, row.walk, row.place)
}

// The same rows, those of one pass together and in the order in which they stood.
fn sorted(rows: Vec<ScanSeen>) -> Result<Vec<ScanSeen>, Memory>
    ensures order { IfOk result (λ v. IsNonDecreasingBy row_key v.items) }
    ensures same { IfOk result (λ v. (key : ℕ) → with_key key v.items ≡ with_key key rows.items) }
{
    let mut rows = rows;
    rows.sort_by_key(|row| key_of(row.worker, row.walk, row.place))?;
    Ok(rows)
}

// The index of the first row that isn't of an earlier pass.
fn first_of(rows: &[ScanSeen], key: u128) -> usize
    requires { IsNonDecreasingBy row_key rows.now }
    ensures within { result ≤ length rows.now }
    ensures before { (n : ℕ) (x : ScanSeen) → n < result → slice_get rows.now n ≡ Some x
        → row_key x < key }
    ensures behind { (n : ℕ) (x : ScanSeen) → result ≤ n → slice_get rows.now n ≡ Some x
        → key ≤ row_key x }
{
    rows.partition_point(|row| key_of(row.worker, row.walk, row.place) < key)
}

// The index behind the last row that isn't of a later pass.
fn behind_of(rows: &[ScanSeen], key: u128) -> usize
    requires { IsNonDecreasingBy row_key rows.now }
    ensures within { result ≤ length rows.now }
    ensures before { (n : ℕ) (x : ScanSeen) → n < result → slice_get rows.now n ≡ Some x
        → row_key x ≤ key }
    ensures behind { (n : ℕ) (x : ScanSeen) → result ≤ n → slice_get rows.now n ≡ Some x
        → key < row_key x }
{
    rows.partition_point(|row| key_of(row.worker, row.walk, row.place) <= key)
}

// The rows of a pass.
fn range_of(rows: &[ScanSeen], key: u128) -> &[ScanSeen]
    requires { IsNonDecreasingBy row_key rows.now }
    ensures { result.now ≡ with_key key rows.now }
{
    let low = first_of(rows, key);
    let high = behind_of(rows, key);
    if low < high { &rows[low..high] } else { &[] }
}

impl Scans {
    /// Those of a report whose numbers have the ranges of their types.
    pub fn of(alloc: Global, report: &Report) -> Result<Scans, Memory>
        requires order { AreInOrder report.now.places.items }
        requires numbers { HasNumbers report.now }
        ensures sorted { IfOk result AreSorted }
        ensures scans { IfOk result (AreScansIn report.now) }
    {
        let rows = sorted(rows_of(alloc, report)?)?;
        Ok(Scans { rows })
    }

    /// Those of the walk with this number of a worker at a place, in the order of the journal.
    pub fn of_pass(&self, worker: u16, walk: u64, place: Place) -> &[ScanSeen]
        requires { AreSorted self.now }
        ensures { (r : Report) → AreScansIn r self.now
            → map made_of_scan result.now ≡ scans_by worker walk (journals_of r place) }
    {
        range_of(self.rows.as_slice(), key_of(worker, walk, place))
    }
}
