// SPDX-License-Identifier: GPL-2.0-only
//! The report that has these bytes as its text.

ghost use Rattle.std.specs.Prelude.{◌≡◌, IfOk, IfSome, IfNone, OnOk};
ghost use Rattle.std.specs.Bool.{Decides};
ghost use Rattle.shr_laws.specs.declared.report.Report.{Report};
ghost use Rattle.shr_laws.specs.Text.{text};
ghost use Rattle.shr_laws.specs.WellFormed.{IsWellFormed};
ghost use Rattle.shr_laws.specs.Numbers.{HasNumbers};
ghost use Rattle.shr_audit_text.specs.Reading.{IsReportOf};

use shr_audit_formed::formed::is_well_formed;
use shr_audit_text::reading::read;
use shr_base::memory::Memory;
use shr_laws::report::Report;
use shr_outside::sinks::MemorySink;
use shr_report::text::print;
use std::alloc::Global;

// Whether a report prints these bytes. It keeps what is printed.
fn prints(alloc: Global, report: &Report, bytes: &[u8]) -> Result<bool, Memory>
    ensures same { IfOk result (λ same. Decides same (text report.now ≡ bytes.now)) }
    ensures numbers { OnOk result (IsWellFormed report.now → HasNumbers report.now) }
{
    let mut sink = MemorySink::new(Vec::new(alloc), usize::MAX, Vec::new(alloc));
    let done = print(report, &mut sink)?;
    if !done {
        return Err(Memory);
    }
    let same = sink.bytes() == bytes;
    Ok(same)
}

/// The report that has these bytes as its text: well formed, with numbers of its types. None: there is
/// none. Want of memory alone is an error.
pub fn report_of(alloc: Global, bytes: &[u8]) -> Result<Option<Report>, Memory>
    ensures some { IfOk result (λ found. IfSome found (λ r. IsReportOf bytes.now r)) }
    ensures none { IfOk result (λ found. IfNone found ((r : Report) → IsReportOf bytes.now r → ⊥)) }
{
    let Some(report) = read(alloc, bytes)? else {
        return Ok(None);
    };
    if !is_well_formed(&report) {
        return Ok(None);
    }
    if !prints(alloc, &report, bytes)? {
        return Ok(None);
    }
    Ok(Some(report))
}
