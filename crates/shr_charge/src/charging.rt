// SPDX-License-Identifier: GPL-2.0-only
//! Charging a group and its ancestors, and taking it back.

ghost use Rattle.std.specs.Prelude.{◌≡◌, ℕ, ◌+◌, ◌*◌, ◌/◌, ◌%◌, ◌^◌, ◌<◌, ◌≤◌, ◌↔◌, true, false, length, All, IsTrue, pos, ◌<ℤ◌, ◌&&◌, ◌==◌};
ghost use Rattle.shr_model.specs.Charges.{IsBelow};
ghost use Rattle.shr_model.specs.Groups.{parent_of};
ghost use Rattle.shr_model.specs.Trees.{depth_of};
ghost use Rattle.shr_charge.specs.Charging.{call_count, shape_limit, Charges, UnchargesOne, IsLaterThan};
ghost use Rattle.shr_charge.specs.Loops.{Climbs, Lowers};
ghost use Rattle.shr_charge.specs.Paths.{path_to};
ghost use Rattle.shr_charge.specs.Seat.{uses_of};
ghost use Rattle.shr_charge.specs.Uses.{op_of, ups_at, downs_at};
ghost use Rattle.shr_charge.specs.Views.{both_uses, one_use};

use crate::answers::ChargeAnswer;
use crate::table::{Charge, ChargeSeat};
use crate::words::WORDS_A_GROUP;
use shr_base::journals::UseStep;
use shr_base::log::Log;
use shr_base::places::Serial;
use std::marker::Brand;

// One up in a usage word, whose high half counts them. A down counts 1.
const ONE_UP: u64 = 1 << 32;

// The operation that found this usage word.
fn step_of(group: u16, by: Serial, up: bool, word: u64) -> UseStep
    requires small { word / 2 ^ 32 + word % 2 ^ 32 < 2 ^ 32 }
    ensures value { result ≡ op_of group by up word }
    ensures small { result.found <ℤ pos (2 ^ 32) }
{
    let ups = word / ONE_UP;
    let downs = word % ONE_UP;
    UseStep {
        group,
        operation: (ups + downs) as u32,
        up,
        found: ups as i64 - downs as i64,
        by,
    }
}

// Whether an operation begins a call that counts.
fn is_first(count: bool, at: u16, group: u16) -> bool
    ensures { result ≡ (count && (at == group)) }
{
    count && at == group
}

impl Charge {
    // Whether an operation found the usage of its group below the limit.
    fn is_below(&self, step: &UseStep) -> bool
        requires { step.now.group < length self.now.shape.parents.items }
        ensures { IsTrue result ↔ IsBelow (shape_limit self.now.shape step.now.group) step.now }
    {
        match self.shape.limits.as_slice()[step.group as usize] {
            Some(limit) => step.found < limit as i64,
            None => true,
        }
    }

    /// The parent of a group.
    ///
    /// Linux: `parent` of `struct page_counter` in include/linux/page_counter.h.
    pub(crate) fn parent(&self, group: u16) -> u16
        requires { group < length self.now.shape.parents.items }
        ensures { result ≡ parent_of self.now.shape.parents.items group }
    {
        self.shape.parents.as_slice()[group as usize]
    }
}

impl<'a> ChargeSeat<'a> {
    // Adds one to a group's usage. Linux: the addition of `page_counter_try_charge` in
    // mm/page_counter.c.
    fn add_up(&mut self, by: Serial, group: u16, first: bool) -> UseStep
        requires group { group < length self.old.charge.shape.parents.items }
        requires room { ups_at group (uses_of self.old).ops + 1 ≤ (uses_of self.old).charges
            + call_count first }
        requires calls { (uses_of self.old).charges + call_count first
            ≤ 2 ^ 21 * (uses_of self.old).seats }
        ensures group { result.group ≡ group }
        ensures up { result.up ≡ true }
        ensures by { result.by ≡ by }
        ensures small { result.found <ℤ pos (2 ^ 32) }
        ensures gains { self.new ≡ record self.old {
          uses = both_uses (uses_of self.old)
              (one_use result (call_count first) 0);
        } }
        ensures later { All (IsLaterThan result) (uses_of self.old).ops }
    {
        let word = self.charge.add_as::<Brand>(
            &mut self.token,
            WORDS_A_GROUP * group as usize + 1,
            ONE_UP,
            group,
            by,
            first,
        );
        self.charges = self.charges.saturating_add(first as u32);
        step_of(group, by, true, word)
    }

    // Takes one from a group's usage. Linux: `page_counter_cancel` in mm/page_counter.c.
    fn add_down(&mut self, by: Serial, group: u16, first: bool) -> UseStep
        requires group { group < length self.old.charge.shape.parents.items }
        requires room { downs_at group (uses_of self.old).ops + 1 ≤ (uses_of self.old).charges
            + ((uses_of self.old).uncharges + call_count first) }
        requires calls { (uses_of self.old).uncharges + call_count first
            ≤ 2 ^ 25 * (uses_of self.old).seats }
        ensures group { result.group ≡ group }
        ensures up { result.up ≡ false }
        ensures by { result.by ≡ by }
        ensures gains { self.new ≡ record self.old {
          uses = both_uses (uses_of self.old)
              (one_use result 0 (call_count first));
        } }
        ensures later { All (IsLaterThan result) (uses_of self.old).ops }
    {
        let word = self.charge.add_as::<Brand>(
            &mut self.token,
            WORDS_A_GROUP * group as usize + 1,
            1,
            group,
            by,
            first,
        );
        self.uncharges = self.uncharges.saturating_add(first as u32);
        step_of(group, by, false, word)
    }

    // Charges a group and its ancestors up to the first level that has no room, and gives that
    // operation.
    fn climb(&mut self, uses: &mut Log<UseStep>, by: Serial, group: u16) -> Option<UseStep>
        requires group { group < length self.old.charge.shape.parents.items }
        requires calls { (uses_of self.old).charges < 2 ^ 21 }
        requires spare { depth_of self.old.charge.shape.parents.items group ≤ uses.old.spare }
        ensures climbs { Climbs self.old.charge.shape by group result self.old self.new uses.old
            uses.new }
    {
        let charge = self.charge;
        let mut at = group;
        'climbing: loop {
            let step = self.add_up(by, at, at == group);
            uses.push(step);
            if !charge.is_below(&step) {
                return Some(step);
            }
            if at == 0 {
                return None;
            }
            at = charge.parent(at);
        }
    }

    // Takes one from a group's usage and from those of its ancestors up to `last`.
    fn lower(&mut self, uses: &mut Log<UseStep>, by: Serial, group: u16, last: u16, count: bool)
        requires group { group < length self.old.charge.shape.parents.items }
        requires room { count ≡ false → (j : ℕ) → downs_at j (uses_of self.old).ops
            < (uses_of self.old).charges + (uses_of self.old).uncharges }
        requires calls { count ≡ true → (uses_of self.old).uncharges < 2 ^ 25 }
        requires spare { length (path_to self.old.charge.shape.parents.items group last)
            ≤ uses.old.spare }
        ensures lowers { Lowers self.old.charge.shape.parents.items by group last count self.old
            self.new uses.old uses.new }
    {
        let charge = self.charge;
        let mut at = group;
        'lowering: loop {
            let first = is_first(count, at, group);
            let step = self.add_down(by, at, first);
            uses.push(step);
            if at == last || at == 0 {
                return;
            }
            at = charge.parent(at);
        }
    }

    /// Charges a group and each of its ancestors for one object, from the group up.
    ///
    /// The first level whose usage isn't below its limit refuses. The charge is then taken back on
    /// every level that was charged, that one too, and meanwhile others may find these usages too
    /// high. Each operation is appended to `uses`. It takes no memory and doesn't wait. Linux:
    /// `page_counter_try_charge` in mm/page_counter.c, which takes back the refusing level first.
    pub fn charge(&mut self, uses: &mut Log<UseStep>, by: Serial, group: u16) -> ChargeAnswer
        requires group { group < length self.old.charge.shape.parents.items }
        requires calls { (uses_of self.old).charges < 2 ^ 21 }
        requires spare { 2 * depth_of self.old.charge.shape.parents.items group ≤ uses.old.spare }
        ensures charges { Charges self.old.charge.shape by group result self.old self.new uses.old
            uses.new }
    {
        let Some(over) = self.climb(uses, by, group) else {
            return ChargeAnswer::Charged;
        };
        self.lower(uses, by, group, over.group, false);
        ChargeAnswer::Over {
            group: over.group,
            operation: over.operation as u64,
            usage: over.found as u32,
        }
    }

    /// Takes one object from the usage of a group and of each of its ancestors, from the group up.
    ///
    /// Each operation is appended to `uses`. It takes no memory and doesn't wait. Linux:
    /// `page_counter_uncharge` in mm/page_counter.c.
    pub fn uncharge(&mut self, uses: &mut Log<UseStep>, by: Serial, group: u16)
        requires group { group < length self.old.charge.shape.parents.items }
        requires calls { (uses_of self.old).uncharges < 2 ^ 25 }
        requires spare { depth_of self.old.charge.shape.parents.items group ≤ uses.old.spare }
        ensures uncharges { UnchargesOne self.old.charge.shape by group self.old self.new uses.old
            uses.new }
    {
        self.lower(uses, by, group, 0, true);
    }
}
