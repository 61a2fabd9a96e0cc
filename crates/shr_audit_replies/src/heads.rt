// SPDX-License-Identifier: GPL-2.0-only
//! What stands at the head of a report, and how many answers there are.

ghost use Rattle.std.specs.Prelude.{◌≡◌, ◌∷◌, codes, map};
ghost use Rattle.std.specs.Bool.{Decides};
ghost use Rattle.shr_laws.specs.Swept.{IsSweepReply};
ghost use Rattle.shr_audit_replies.specs.Heads.{AreLastSwept, HasAnswers, HasNames, HasPaths, HasPoolNames, HasSizes, AllHaveAnswers, IsLastSwept};

use crate::numbers::{answer_of, count_answers, count_commands, count_sweeps};
use shr_base::replies::Reply;
use shr_base::scripts::{CacheDecl, GroupDecl, PoolDecl, Script};
use shr_base::text::Text;
use shr_laws::report::Report;

/// Whether a report has the version and the sizes of a script.
pub fn has_sizes(script: &Script, report: &Report) -> bool
    ensures { Decides result (HasSizes script.now report.now) }
{
    report.version == script.version && report.nodes == script.nodes && report.ids == script.ids
}

// Whether a text is the path of a group.
fn is_path_of(path: &Text, group: &GroupDecl) -> bool
    ensures { Decides result (path.now ≡ group.now.path) }
{
    path.same(&group.path)
}

// Whether these texts are the paths of these groups.
fn are_paths(paths: &[Text], groups: &[GroupDecl]) -> bool
    ensures { Decides result (paths.now ≡ map (λ g. g.path) groups.now) }
{
    if paths.len() != groups.len() {
        return false;
    }
    for i in 0..groups.len() {
        if !is_path_of(&paths[i], &groups[i]) {
            return false;
        }
    }
    true
}

// Whether a text is the name of a cache.
fn is_name_of(name: &Text, cache: &CacheDecl) -> bool
    ensures { Decides result (name.now ≡ cache.now.name) }
{
    name.same(&cache.name)
}

// Whether these texts are the names of these caches.
fn are_names(names: &[Text], caches: &[CacheDecl]) -> bool
    ensures { Decides result (names.now ≡ map (λ c. c.name) caches.now) }
{
    if names.len() != caches.len() {
        return false;
    }
    for i in 0..caches.len() {
        if !is_name_of(&names[i], &caches[i]) {
            return false;
        }
    }
    true
}

// Whether a text is the name of a pool.
fn is_pool_name_of(name: &Text, pool: &PoolDecl) -> bool
    ensures { Decides result (name.now ≡ pool.now.name) }
{
    name.same(&pool.name)
}

// Whether these texts are the names of these pools.
fn are_pool_names(names: &[Text], pools: &[PoolDecl]) -> bool
    ensures { Decides result (names.now ≡ map (λ p. p.name) pools.now) }
{
    if names.len() != pools.len() {
        return false;
    }
    for i in 0..pools.len() {
        if !is_pool_name_of(&names[i], &pools[i]) {
            return false;
        }
    }
    true
}

// Whether a path is that of the root.
fn is_root(path: &Text) -> bool
    ensures { Decides result (path.now ≡ codes "/") }
{
    path.bytes() == b"/".as_slice()
}

// Whether these texts are the paths of these groups, that of the root first.
fn are_all_paths(paths: &[Text], groups: &[GroupDecl]) -> bool
    ensures { Decides result (paths.now ≡ codes "/" ∷ map (λ g. g.path) groups.now) }
{
    let [root, below @ ..] = paths else {
        return false;
    };
    if !is_root(root) {
        return false;
    }
    let all = are_paths(below, groups);
    all
}

/// Whether a report has the paths of a script's groups, that of the root first.
pub fn has_paths(script: &Script, report: &Report) -> bool
    ensures { Decides result (HasPaths script.now report.now) }
{
    let all = are_all_paths(report.groups.as_slice(), script.groups.as_slice());
    all
}

/// Whether it has the names of its caches.
pub fn has_names(script: &Script, report: &Report) -> bool
    ensures { Decides result (HasNames script.now report.now) }
{
    let all = are_names(report.caches.as_slice(), script.caches.as_slice());
    all
}

/// Whether it has the names of its pools.
pub fn has_pool_names(script: &Script, report: &Report) -> bool
    ensures { Decides result (HasPoolNames script.now report.now) }
{
    let all = are_pool_names(report.pools.as_slice(), script.pools.as_slice());
    all
}

// Whether a worker has one answer per command, and one to the sweep of a script that has one.
fn has_answers(script: &Script, report: &Report, worker: usize) -> bool
    ensures { Decides result (HasAnswers script.now report.now worker) }
{
    let answers = count_answers(report, worker);
    let commands = count_commands(script, worker);
    if answers < commands {
        return false;
    }
    answers - commands == count_sweeps(script, worker)
}

/// Whether each worker has one answer per command, and behind them one to the sweep of a script
/// that has one.
pub fn is_counted(script: &Script, report: &Report) -> bool
    ensures { Decides result (AllHaveAnswers script.now report.now) }
{
    let workers = script.workers.len().max(report.workers.len());
    for worker in 0..workers {
        if !has_answers(script, report, worker) {
            return false;
        }
    }
    true
}

// Whether a reply is one to a sweep.
fn is_sweep_reply(reply: &Reply) -> bool
    ensures { Decides result (IsSweepReply reply.now) }
{
    match reply {
        Reply::Swept { .. } | Reply::WalkMemory { .. } => true,
        _ => false,
    }
}

// Whether the answer behind those to a worker's commands, if there is one, is to a sweep.
fn is_last_swept(script: &Script, report: &Report, worker: usize) -> bool
    ensures { Decides result (IsLastSwept script.now report.now worker) }
{
    match answer_of(report, worker, count_commands(script, worker)) {
        Some(answer) => is_sweep_reply(&answer.reply),
        None => true,
    }
}

/// Whether that is so of each worker.
pub fn are_last_swept(script: &Script, report: &Report) -> bool
    ensures { Decides result (AreLastSwept script.now report.now) }
{
    for worker in 0..report.workers.len() {
        if !is_last_swept(script, report, worker) {
            return false;
        }
    }
    true
}
