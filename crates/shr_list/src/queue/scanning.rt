// SPDX-License-Identifier: GPL-2.0-only
//! Scans of a queue.

ghost use Rattle.std.specs.Prelude.{◌≡◌, ◌≤◌, [], true, false, length, Ok, IfOk, OnErr};
ghost use Rattle.shr_model.specs.Scan.{case_of, scan_of};
ghost use Rattle.shr_list.specs.Nodes.{KeepsKeys};
ghost use Rattle.shr_list.specs.Scanning.{IsLeftAlone, IsScan};

use crate::queue::Queue;
use shr_base::log::Log;
use shr_base::memory::Memory;
use shr_base::objects::{LruStatus, Object, Policy};

/// The callback of a cache with this policy. Linux: `isolate` of `list_lru_walk_one`.
pub fn isolate(policy: Policy, object: &Object) -> LruStatus
    ensures { result ≡ case_of policy object.now }
{
    match policy {
        Policy::Plain => LruStatus::Removed,
        Policy::Clock if object.pinned => LruStatus::Skip,
        Policy::Clock if object.marked => LruStatus::Rotate,
        Policy::Clock => LruStatus::Removed,
        Policy::Halt if object.pinned => LruStatus::Stop,
        Policy::Halt => LruStatus::Removed,
    }
}

/// What a scan did: the objects that it freed in order, how many it met, and whether one stopped
/// it.
///
/// Linux: what `__list_lru_walk_one` in mm/list_lru.c counts in `isolated` and takes from
/// `nr_to_walk`.
#[derive(Drop)]
pub struct Scan {
    pub freed: Log<Object>,
    pub visits: u32,
    pub stopped: bool,
}

// How many objects were met, and whether one stopped the scan.
#[derive(Clone, Copy)]
struct Met {
    visits: u32,
    stopped: bool,
}

// At least as many as such a scan frees. They are counted where it begins with a rotation, since it
// may be that none is freed.
fn most_freed(queue: &Queue, policy: Policy, asked: u32, first: LruStatus) -> usize
    ensures { length (scan_of policy asked queue.now.items).freed ≤ result }
{
    match first {
        LruStatus::Rotate => queue.count_freed(policy, asked),
        _ => (asked as usize).min(queue.len()),
    }
}

// Makes room for what a scan of these objects frees, where it has none yet and doesn't leave this
// one as it is. It answers whether the room is made.
fn make_room(
    queue: &Queue,
    freed: &mut Log<Object>,
    policy: Policy,
    asked: u32,
    status: LruStatus,
    made: bool,
) -> Result<bool, Memory>
    ensures same { made ≡ true → (freed.new ≡ freed.old) × (result ≡ Ok true) }
    ensures items { freed.new.items ≡ freed.old.items }
    ensures room { made ≡ false → IfOk result (λ now. now ≡ true → length (scan_of policy asked
        queue.now.items).freed ≤ freed.new.spare) }
    ensures left { IfOk result (λ now. now ≡ false → IsLeftAlone status) }
{
    if made {
        return Ok(true);
    }
    if matches!(status, LruStatus::Skip | LruStatus::Stop) {
        return Ok(false);
    }
    freed.reserve(most_freed(queue, policy, asked, status))?;
    Ok(true)
}

// Meets objects from the head until the budget is spent, none is left or one stops the scan. It has
// room for what it frees before it changes anything.
fn go_through(
    queue: &mut Queue,
    freed: &mut Log<Object>,
    policy: Policy,
    asked: u32,
) -> Result<Met, Memory>
    requires none_freed { freed.old.items ≡ [] }
    ensures scanned { IfOk result (λ met. scan_of policy asked queue.old.items ≡ record {
      items = queue.new.items;
      freed = freed.new.items;
      visits = met.visits;
      stopped = met.stopped;
    }) }
    ensures kept { OnErr result (queue.new ≡ queue.old) }
    ensures keys { KeepsKeys queue.old.keys queue.old.items queue.new.keys queue.new.items }
{
    let mut at = queue.head();
    let mut roomy = false;
    for met in 0..asked {
        let Some(node) = at else {
            return Ok(Met {
                visits: met,
                stopped: false,
            });
        };
        // The callback may take the object out, or put it at the tail.
        let next = queue.next(node);
        let status = isolate(policy, queue.object(node));
        roomy = make_room(queue, freed, policy, asked, status, roomy)?;
        match status {
            LruStatus::Removed => freed.push(queue.free(node)),
            LruStatus::Skip => {}
            LruStatus::Rotate => queue.rotate(node),
            LruStatus::Stop => {
                return Ok(Met {
                    visits: met + 1,
                    stopped: true,
                });
            }
        }
        at = next;
    }
    Ok(Met {
        visits: asked,
        stopped: false,
    })
}

impl Queue {
    /// Goes once from the head with a budget of `asked` visits, and does with each object what the
    /// callback of this policy answers. The objects stay if there is no memory for it.
    ///
    /// The next object is held before the callback, so a rotated one can be met again while others
    /// follow, and the scan ends after the object that was last when it was met. It costs its
    /// visits, and a count of them before where it begins with a rotation.
    ///
    /// Linux: `__list_lru_walk_one` in mm/list_lru.c.
    pub fn scan(&mut self, policy: Policy, asked: u32) -> Result<Scan, Memory>
        ensures scanned { IfOk result (λ scan. IsScan policy asked self.old.items self.new.items
            scan) }
        ensures kept { OnErr result (self.new ≡ self.old) }
        ensures keys { KeepsKeys self.old.keys self.old.items self.new.keys self.new.items }
    {
        let mut freed = Log::new(self.alloc);
        let met = go_through(self, &mut freed, policy, asked)?;
        Ok(Scan {
            freed,
            visits: met.visits,
            stopped: met.stopped,
        })
    }

    /// How many objects such a scan would free. The objects stay; it costs at most their number.
    pub fn count_freed(&self, policy: Policy, asked: u32) -> usize
        ensures { result ≡ length (scan_of policy asked self.now.items).freed }
    {
        let budget = asked as usize;
        let most = budget.min(self.links.len());
        let mut freed = 0;
        let mut rotated = 0;
        let mut at = self.links.head();
        for met in 0..most {
            let Some(node) = at else {
                return freed;
            };
            match isolate(policy, self.links.object(node)) {
                LruStatus::Removed => freed += 1,
                LruStatus::Skip => {}
                LruStatus::Rotate => {
                    if rotated > 0 || met + 1 < self.links.len() {
                        rotated += 1;
                    }
                }
                LruStatus::Stop => return freed,
            }
            at = self.links.next(node);
        }
        freed + rotated.min(budget - most)
    }
}
