// SPDX-License-Identifier: GPL-2.0-only
//! Registering and unregistering.

ghost use Rattle.std.specs.Prelude.{◌≡◌};

use crate::desk::lists::BY;
use shr_registry::answers::{RegisterAnswer, UnregisterAnswer};
use shr_registry::{registering, unregistering};
use shr_walk::worker::Worker;
use std::sync::Wait;

/// Registers a declaration, if there is such a one.
pub fn register<R: Wait>(worker: &mut Worker<'_, R>, decl: u8) -> Option<RegisterAnswer>
    ensures { worker.new.shared ≡ worker.old.shared }
{
    if decl >= worker.shared.core.shape().decls {
        return None;
    }
    Some(registering::register(worker.rt, &mut worker.seats.cache.core, decl))
}

/// Unregisters a declaration, if there is such a one. Its objects are not uncharged.
pub fn unregister<R: Wait>(worker: &mut Worker<'_, R>, decl: u8) -> Option<UnregisterAnswer> {
    if decl >= worker.shared.core.shape().decls {
        return None;
    }
    Some(unregistering::unregister(worker.rt, &mut worker.seats.cache.core, decl, BY))
}
