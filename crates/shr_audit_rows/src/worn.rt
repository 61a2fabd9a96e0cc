// SPDX-License-Identifier: GPL-2.0-only
//! Replies that tell of a counter that was used up.

ghost use Rattle.std.specs.Prelude.{◌<◌, length};
ghost use Rattle.std.specs.Bool.{Decides};
ghost use Rattle.shr_audit_reasons.specs.Counted.{IsCountOf};
ghost use Rattle.shr_audit_case.specs.Places.{AreInOrder};
ghost use Rattle.shr_laws.specs.ReplyTable.{IsUsedUp};

use shr_audit_reasons::counted::Counted;
use shr_audit_reasons::pools::is_pool_spent;
use shr_audit_reasons::spent::is_spent;
use shr_base::places::Serial;
use shr_base::replies::Spent;
use shr_base::scripts::{Command, Script};
use shr_laws::report::Report;

/// Whether what a command found used up was: the journal of its pool, or a counter of its worker.
pub fn is_used_up(
    script: &Script,
    report: &Report,
    counted: &Counted,
    by: Serial,
    command: &Command,
    spent: Spent,
) -> bool
    requires order { AreInOrder report.now.places.items }
    requires counted { IsCountOf script.now report.now counted.now }
    requires there { by.worker < length report.now.workers.items }
    ensures { Decides result (IsUsedUp script.now report.now by command.now spent) }
{
    match command {
        Command::Release { node, pool, .. } => {
            is_pool_spent(script, report, *pool as usize, *node, spent)
        }
        Command::Grab { node, pool } => {
            is_pool_spent(script, report, *pool as usize, *node, spent)
        }
        _ => is_spent(script, report, counted, by.worker as usize, spent),
    }
}
