// SPDX-License-Identifier: GPL-2.0-only
//! What becomes of the memory of a report that was written.

use shr_laws::report::Report;
use std::mem::forget;

/// What becomes of the memory of a run's report once all of its text was written.
#[derive(Clone, Copy, Debug, PartialEq, Eq)]
pub enum Afterwards {
    /// It is given back before the call returns.
    GiveBack,
    /// It is left to the end of the process, which gives all back at once: for a caller that ends next.
    LeaveToExit,
}

/// Gives the memory of a report back, or leaves it.
pub(crate) fn let_go(report: Report, afterwards: Afterwards) {
    match afterwards {
        Afterwards::GiveBack => drop(report),
        Afterwards::LeaveToExit => forget(report),
    }
}
