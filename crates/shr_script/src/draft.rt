// SPDX-License-Identifier: GPL-2.0-only
//! What the lines make of a script.

use shr_base::log::Log;
use shr_base::scripts::{CacheDecl, Command, GroupDecl, PoolDecl, Sweep, WorkerScript};

/// The declarations, the workers that are complete, the commands of the last one, and the sweep.
#[derive(Drop)]
pub struct Draft {
    pub groups: Log<GroupDecl>,
    pub caches: Log<CacheDecl>,
    pub pools: Log<PoolDecl>,
    pub complete: Log<WorkerScript>,
    pub commands: Vec<Command>,
    pub sweep: Option<Sweep>,
    /// How many commands the script may have, by a guess.
    pub likely: usize,
}
