// SPDX-License-Identifier: GPL-2.0-only
//! Entries of the journal of registrations that a reply made.

ghost use Rattle.std.specs.Bool.{Decides};
ghost use Rattle.std.specs.Option.{IsSomeAnd};
ghost use Rattle.shr_audit_rows.specs.Registered.{EntryRegisters};

use shr_base::journals::PoolEntry;
use shr_laws::report::Report;

/// Whether an entry registered the declaration with an id, if there is one.
pub fn is_registered(report: &Report, decl: Option<u8>, id: u16, entry: u32) -> bool
    ensures { Decides result (IsSomeAnd decl (λ d. EntryRegisters report.now d id entry)) }
{
    match decl {
        Some(d) => match report.pool.get(entry as usize) {
            Some(
                PoolEntry::Registered {
                    decl: named,
                    id: of,
                    ..
                },
            ) => *named == d && *of == id,
            _ => false,
        },
        None => false,
    }
}
