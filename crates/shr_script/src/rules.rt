// SPDX-License-Identifier: GPL-2.0-only
//! A line's own rule.

ghost use Rattle.std.specs.Prelude.{◌≡◌, ◌+◌, ◌≤◌, ◌<◌, nat_le, OnOk, None, length};
ghost use Rattle.shr_base.specs.declared.scripts.Code.TheVariants.{TooMany};
ghost use Rattle.shr_words.specs.WordReading.{Gives};
ghost use Rattle.shr_words.specs.Classes.{place_of, flag_place};
ghost use Rattle.shr_script.specs.Lines.{refused_if, may_hold_group, most_groups, group_rule, cache_rule, pool_rule};
ghost use Rattle.shr_script.specs.Said.{said_state};

use crate::said::Said;
use shr_base::scripts::Code;
use shr_words::paths::parent_path;
use shr_words::word::is_marked;

// Whether a group, where it is there, may be the parent of one that is later or not.
fn may_hold(marks: &[bool], later: bool, parent: Option<u16>) -> bool
    ensures { result ≡ may_hold_group marks.now later parent }
{
    match parent {
        Some(group) => later || !is_marked(marks, group),
        None => false,
    }
}

// The most groups that a script of a version may have, the root counted.
fn most_groups(version: u8) -> usize
    ensures most { result ≡ most_groups version }
    ensures within { result ≤ 256 }
{
    if version == 2 { 256 } else { 64 }
}

/// NoParent, Exists and TooMany of a group that is later or not, in this order.
#[tactic(auto, unfolding(crate::specs::Lines::group_rule))]
pub fn group_rule(said: &Said, later: bool, path: &[u8]) -> Result<(), Code>
    ensures reads { Gives (λ x. x) result (group_rule (said_state said.now) later path.now) }
    ensures absent { OnOk result (place_of path.now said.now.groups ≡ None) }
    ensures few { OnOk result (length said.now.groups < 256) }
{
    let parent = said.groups.place(parent_path(path));
    if path != b"/".as_slice() && !may_hold(said.later.as_slice(), later, parent) {
        return Err(Code::NoParent);
    }
    if said.groups.place(path).is_some() {
        return Err(Code::Exists);
    }
    if said.groups.len() >= most_groups(said.version) {
        return Err(Code::TooMany);
    }
    Ok(())
}

/// Exists and TooMany of a cache, in this order.
#[tactic(auto, unfolding(crate::specs::Lines::cache_rule))]
pub fn cache_rule(said: &Said, name: &[u8], on: bool) -> Result<(), Code>
    ensures absent { OnOk result (place_of name.now said.now.caches ≡ None) }
    ensures few { OnOk result (length said.now.caches < 250) }
    ensures room { OnOk result (said.now.on + flag_place on ≤ said.now.ids) }
    ensures reads { Gives (λ x. x) result (cache_rule (said_state said.now) name.now
        (flag_place on)) }
{
    if said.caches.place(name).is_some() {
        return Err(Code::Exists);
    }
    if said.caches.len() >= 250 || said.on as u64 + on as u64 > said.ids as u64 {
        return Err(Code::TooMany);
    }
    Ok(())
}

/// Exists and TooMany of a pool, in this order.
#[tactic(auto, unfolding(crate::specs::Lines::pool_rule))]
pub fn pool_rule(said: &Said, name: &[u8]) -> Result<(), Code>
    ensures reads { Gives (λ x. x) result (pool_rule (said_state said.now) name.now) }
    ensures absent { OnOk result (place_of name.now said.now.pools ≡ None) }
    ensures few { OnOk result (length said.now.pools < 64) }
{
    if said.pools.place(name).is_some() {
        return Err(Code::Exists);
    }
    if said.pools.len() >= 64 {
        return Err(Code::TooMany);
    }
    Ok(())
}

/// TooMany of a command.
pub fn command_rule(said: &Said) -> Result<(), Code>
    ensures reads { Gives (λ x. x) result (refused_if (nat_le 20000 said.now.commands) TooMany) }
    ensures room { OnOk result (said.now.commands < 20000) }
{
    if said.commands >= 20_000 {
        return Err(Code::TooMany);
    }
    Ok(())
}
