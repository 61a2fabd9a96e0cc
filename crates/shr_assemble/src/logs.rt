// SPDX-License-Identifier: GPL-2.0-only
//! What is left of a worker once its seats were joined.

use shr_base::journals::UseStep;
use shr_base::log::Log;
use shr_base::replies::Answered;
use shr_base::walks::{Carry, Isolation, PlainWalk, WalkRecord};

/// What a worker answered and noted.
#[derive(Drop)]
pub struct WorkerLog {
    pub answers: Log<Answered>,
    pub walks: Log<WalkRecord>,
    pub carries: Log<Carry>,
    pub uses: Log<UseStep>,
    pub plain: Log<PlainWalk>,
    pub isolations: Log<Isolation>,
}
