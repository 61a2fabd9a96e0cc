// SPDX-License-Identifier: GPL-2.0-only
//! The charges of commands in groups, for what an Over says of the last one.

ghost use Rattle.std.specs.Prelude.{◌≡◌, ℕ, ◌+◌, ◌<◌, ◌^◌, ◌∷◌, [], ◌++◌, List, length, get_or, nat_eq, replicate, IfOk, OnOk};
ghost use Rattle.std.specs.Bool.{Decides};
ghost use Rattle.std.specs.Option.{IsSomeAnd};
ghost use Rattle.std.specs.HashMap.{get};
ghost use Rattle.shr_base.specs.declared.journals.UseStep.{UseStep};
ghost use Rattle.shr_laws.specs.Causes.{IsOver};
ghost use Rattle.shr_audit_rows.specs.Over.{AreFourteen, IsFullAt, IsSaidOf};
ghost use Rattle.shr_audit_rows.specs.Tried.{AreTries, IsTriedKeyed, IsLastNoted, IsUntried, tried_key, ups_with};

use shr_base::journals::UseStep;
use shr_base::memory::Memory;
use shr_base::places::Serial;
use shr_base::scripts::Script;
use shr_laws::report::Report;
use std::alloc::Global;
use std::collections::HashMap;

/// The charges of a command in a group: how many, 15 where there are more, and the last.
#[derive(Clone, Copy, Debug, PartialEq, Eq)]
pub struct Tried {
    pub ups: u8,
    /// Where the last one stands among the operations of its group.
    pub index: u64,
    pub last: UseStep,
}

/// Those of each command in each group.
#[derive(Drop)]
pub struct Tries {
    pub tried: HashMap<u64, Tried>,
    /// How many operations each group has.
    pub counts: Vec<u64>,
}

// A command in a group, by one number.
fn own_key(group: u16, worker: u16, command: u32) -> u64
    ensures key { result ≡ tried_key group worker command }
    ensures keyed { IsTriedKeyed group worker command }
{
    0x1_0000_0000_0000 * group as u64 + 0x1_0000_0000 * worker as u64 + command as u64
}

// One charge more, 15 where there are more.
fn ups_with(before: Option<Tried>) -> u8
    ensures { result ≡ ups_with before }
{
    match before {
        Some(tried) => { if tried.ups < 15 { tried.ups + 1 } else { 15 } }
        None => 1,
    }
}

// No charges.
fn no_tried(alloc: Global) -> HashMap<u64, Tried>
    ensures { IsUntried result }
{
    HashMap::new(alloc)
}

// No operations of so many groups.
fn zeros(alloc: Global, count: usize) -> Result<Vec<u64>, Memory>
    ensures { IfOk result (λ v. v.items ≡ replicate count 0) }
{
    Ok(vec![in alloc; 0; count]?)
}

// The charges of a command in a group.
fn tried_in(tried: &HashMap<u64, Tried>, group: u16, by: Serial) -> Option<Tried>
    ensures { result ≡ get nat_eq tried.now (tried_key group by.worker by.command) }
{
    let key = own_key(group, by.worker, by.command);
    tried.get(&key).copied()
}

// Notes a charge, which stands there among the operations of its group.
fn note_up(tried: &mut HashMap<u64, Tried>, step: UseStep, index: u64) -> Result<(), Memory>
    ensures { OnOk result (IsLastNoted step index tried.old tried.new) }
{
    let before = tried_in(tried, step.group, step.by);
    let ups = ups_with(before);
    let key = own_key(step.group, step.by.worker, step.by.command);
    let last = Tried {
        ups,
        index,
        last: step,
    };
    tried.insert(key, last)?;
    Ok(())
}

// Notes an operation.
fn note(tries: &mut Tries, step: UseStep) -> Result<(), Memory>
    requires sized { length tries.old.counts.items ≡ 65536 }
    requires room { (group : ℕ) → group < 65536
        → get_or tries.old.counts.items group 0 + 1 < 2 ^ 64 }
    ensures { OnOk result ((before : List UseStep)
        → AreTries before tries.old.tried tries.old.counts.items
        → AreTries (before ++ step ∷ []) tries.new.tried tries.new.counts.items) }
{
    let group = step.group as usize;
    let index = tries.counts[group];
    tries.counts[group] = index + 1;
    if !step.up {
        return Ok(());
    }
    note_up(&mut tries.tried, step, index)?;
    Ok(())
}

// No charges, in so many groups.
fn blank(alloc: Global, count: usize) -> Result<Tries, Memory>
    requires { count ≡ 65536 }
    ensures { IfOk result (λ t. AreTries [] t.tried t.counts.items) }
{
    let tried = no_tried(alloc);
    let counts = zeros(alloc, count)?;
    Ok(Tries { tried, counts })
}

/// The charges of each command in each group.
pub fn tries_of(alloc: Global, report: &Report) -> Result<Tries, Memory>
    ensures { IfOk result (λ t. AreTries report.now.uses.items t.tried t.counts.items) }
{
    let mut tries = blank(alloc, 65536)?;
    let uses = report.uses.as_slice();
    for n in 0..uses.len() {
        note(&mut tries, uses[n])?;
    }
    Ok(tries)
}

// Whether a group's limit isn't above a usage.
fn is_full(script: &Script, group: u16, usage: u32) -> bool
    ensures { Decides result (IsFullAt script.now group usage) }
{
    if group == 0 {
        return false;
    }
    match script.groups.get(group as usize - 1) {
        Some(decl) => match decl.limit {
            Some(limit) => limit <= usage,
            None => false,
        },
        None => false,
    }
}

/// What an Over says: the group that refused, its operation and the usage that it found.
#[derive(Clone, Copy, Debug, PartialEq, Eq)]
pub struct Refused {
    pub group: u16,
    pub operation: u64,
    pub usage: u32,
}

// Whether a charge is the one that an Over says.
fn is_refused_one(tried: Tried, by: Serial, refused: Refused) -> bool
    ensures { Decides result (IsSaidOf by refused tried) }
{
    if tried.index != refused.operation || tried.last.operation as u64 != refused.operation {
        return false;
    }
    let own = tried.last.by.worker == by.worker && tried.last.by.command == by.command;
    let here = tried.last.group == refused.group;
    let found = tried.last.found == refused.usage as i64;
    own && here && found
}

// The same, if there is one.
fn is_last_refused(tried: Option<Tried>, by: Serial, refused: Refused) -> bool
    ensures { Decides result (IsSomeAnd tried (IsSaidOf by refused)) }
{
    match tried {
        Some(tried) => is_refused_one(tried, by, refused),
        None => false,
    }
}

// Whether a command charged its own group 14 times.
fn are_fourteen(tried: Option<Tried>) -> bool
    ensures { Decides result (IsSomeAnd tried AreFourteen) }
{
    match tried {
        Some(tried) => tried.ups == 14,
        None => false,
    }
}

/// Whether the last of the charges of a put was refused as an Over says, and each of the others of
/// its own group.
pub fn is_over(
    script: &Script,
    report: &Report,
    tries: &Tries,
    by: Serial,
    own: u16,
    refused: Refused,
) -> bool
    requires { AreTries report.now.uses.items tries.now.tried tries.now.counts.items }
    ensures { Decides result (IsOver script.now report.now by own refused.group refused.operation
        refused.usage) }
{
    let last = tried_in(&tries.tried, refused.group, by);
    if !is_last_refused(last, by, refused) {
        return false;
    }
    let whole = tried_in(&tries.tried, own, by);
    if !are_fourteen(whole) {
        return false;
    }
    is_full(script, refused.group, refused.usage)
}
