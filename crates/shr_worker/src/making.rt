// SPDX-License-Identifier: GPL-2.0-only
//! The command that makes a group.

ghost use Rattle.std.specs.Prelude.{◌≡◌, true};
ghost use Rattle.shr_model.specs.Groups.{is_later};
ghost use Rattle.shr_script.specs.Bounds.{IsGroup, content_later};
ghost use Rattle.shr_script.specs.Content.{content_of};
ghost use Rattle.shr_walk.specs.Acting.{IsSame};
ghost use Rattle.shr_worker.specs.Commands.{MakesGroup};

use crate::replies::make_reply;
use shr_base::replies::Answered;
use shr_cache::replies::unfound;
use shr_walk::worker::Worker;
use std::sync::Wait;

/// Makes a group that isn't there at the start, or tells why not: it is made already, its parent
/// isn't made, its parent went offline, or there was no memory, in this order.
///
/// It waits for the journal's room. Linux: `cgroup_mkdir` in kernel/cgroup/cgroup.c.
pub fn mkgroup<R: Wait>(worker: &mut Worker<'_, R>, group: u16) -> Answered
    requires group { IsGroup (content_of worker.old.shared.script) group }
    requires late { is_later (content_later (content_of worker.old.shared.script)) group ≡ true }
    ensures makes { MakesGroup worker.old.shared group result worker.old.state worker.new.state }
    ensures same { IsSame worker.old worker.new }
{
    let answer = worker.seats.cache.charge.make_group(worker.rt, group);
    unfound(make_reply(answer))
}
