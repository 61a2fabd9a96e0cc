// SPDX-License-Identifier: GPL-2.0-only
//! A charge and its rounds.

ghost use Rattle.std.specs.Prelude.{◌≡◌, ◌<◌, ◌≤◌, ◌^◌, None, IfOk, OnOk, OnErr};
ghost use Rattle.shr_model.specs.Trees.{depth_of};
ghost use Rattle.shr_charge.specs.Seat.{spent_by};
ghost use Rattle.shr_seats.specs.Shapes.{groups_in};
ghost use Rattle.shr_core.specs.Seats.{shape_of};
ghost use Rattle.shr_walk.specs.Acting.{IsSame};
ghost use Rattle.shr_walk.specs.Admitting.{AdmissionGives, LeavesRoom};
ghost use Rattle.shr_walk.specs.Looping.{admission_of, RefusedThere};
ghost use Rattle.shr_walk.specs.Trying.{IsChargeTried};

use crate::admission::Admission;
use crate::rounds::walk_round;
use crate::worker::Worker;
use shr_base::memory::Memory;
use shr_charge::answers::ChargeAnswer;
use std::sync::Wait;

/// The priority of the first round; the last one has 0.
///
/// Linux: `DEF_PRIORITY` in include/linux/mmzone.h.
pub const DEF_PRIORITY: u8 = 12;

// One try of the charge, with room for its operations and for those of taking it back later.
fn charge_once<R: Wait>(worker: &mut Worker<'_, R>, group: u16) -> Result<ChargeAnswer, Memory>
    requires group { group < groups_in (shape_of worker.old.shared.core) }
    requires calls { worker.old.state.uses.charges < 2 ^ 21 }
    ensures tried { IfOk result (λ a. IsChargeTried worker.old.shared worker.old.by group a
        worker.old.state worker.new.state) }
    ensures there { IfOk result (λ a. RefusedThere worker.old.shared a) }
    ensures room { let parents = worker.old.shared.charge.shape.parents.items in
        OnOk result (depth_of parents group ≤ worker.new.use_room) }
    ensures left { OnErr result (worker.new.state ≡ worker.old.state) }
    ensures same { IsSame worker.old worker.new }
{
    let depth = worker.shared.tree.depth(group) as usize;
    let cache = &mut worker.seats.cache;
    cache.uses.reserve(3 * depth)?;
    Ok(cache.charge.charge(&mut cache.uses, worker.by, group))
}

// Tries the charge, and after each refusal makes a round and tries it again.
fn charge_in_rounds<R: Wait>(worker: &mut Worker<'_, R>, group: u16) -> Result<ChargeAnswer, Memory>
    requires group { group < groups_in (shape_of worker.old.shared.core) }
    requires calls { spent_by worker.old.state.uses ≡ None }
    ensures admitted { let admission = admission_of result in
        AdmissionGives worker.old.shared worker.old.by group admission worker.old.state
        worker.new.state }
    ensures room { LeavesRoom group (admission_of result) worker.new }
    ensures same { IsSame worker.old worker.new }
{
    let mut answer = charge_once(worker, group)?;
    for priority in (0..DEF_PRIORITY + 1).rev() {
        match answer {
            ChargeAnswer::Charged => return Ok(ChargeAnswer::Charged),
            ChargeAnswer::Over {
                group: over,
                operation: _,
                usage: _,
            } => walk_round(worker, over, priority)?,
        }
        answer = charge_once(worker, group)?;
    }
    Ok(answer)
}

/// Charges a group and each of its ancestors for one object, and reclaims when the charge is
/// refused.
///
/// After each refusal comes a round of walks, and the charge is tried again: at most thirteen
/// rounds, of priority 12 down to 0. A round walks, on each node in rising order, the subtree of
/// the group that had no room at the latest refusal, in preorder; its walks may enter a
/// filesystem. A walk over a group that is offline counts as one. `Over` names the refusal after
/// the round of priority 0. `Memory` comes for want of memory, before a try or in a walk: no
/// charge stands then, and the walks made up to there do. After `Charged` there is room to note
/// that the charge is taken back.
///
/// It may wait for others. The seat isn't worn out before (`ChargeSeat::spent` answered None).
///
/// Linux: `try_charge_memcg` in mm/memcontrol.c with `try_to_free_mem_cgroup_pages` in mm/vmscan.c.
/// There `do_try_to_free_pages` goes down the priorities in one call, and ends once enough was
/// reclaimed; here the charge itself is tried after each.
pub fn try_charge<R: Wait>(worker: &mut Worker<'_, R>, group: u16) -> Admission
    requires group { group < groups_in (shape_of worker.old.shared.core) }
    requires calls { spent_by worker.old.state.uses ≡ None }
    ensures admitted { AdmissionGives worker.old.shared worker.old.by group result
        worker.old.state worker.new.state }
    ensures room { LeavesRoom group result worker.new }
    ensures same { IsSame worker.old worker.new }
{
    let Ok(answer) = charge_in_rounds(worker, group) else {
        return Admission::Memory;
    };
    match answer {
        ChargeAnswer::Charged => Admission::Charged,
        ChargeAnswer::Over {
            group: over,
            operation,
            usage,
        } => Admission::Over {
            group: over,
            operation,
            usage,
        },
    }
}
