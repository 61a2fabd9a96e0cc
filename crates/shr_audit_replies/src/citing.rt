// SPDX-License-Identifier: GPL-2.0-only
//! Which replies a tenant's command may have with a cache that was found, and what they cite.

ghost use Rattle.std.specs.Prelude.{◌≡◌, ℕ, ◌↔◌, List, Some, option_copied};
ghost use Rattle.std.specs.Bool.{Decides};
ghost use Rattle.shr_base.specs.declared.journals.Entry.{Entry};
ghost use Rattle.shr_base.specs.declared.journals.Entry.TheVariants.{Add, Drop, Look, Pin};
ghost use Rattle.shr_base.specs.declared.places.Serial.{Serial};
ghost use Rattle.shr_base.specs.declared.places.Target.{Target};
ghost use Rattle.shr_base.specs.declared.scripts.Act.TheVariants.{Del, Get, SetPin};
ghost use Rattle.shr_base.specs.declared.scripts.Command.TheVariants.{Isolate, On, Put};
ghost use Rattle.shr_model.specs.Families.{Family};
ghost use Rattle.shr_audit_case.specs.Places.{AreInOrder};
ghost use Rattle.shr_laws.specs.Parts.{journals_of, serial_of};
ghost use Rattle.shr_laws.specs.ReplyTable.{Cites, IsReply};
ghost use Rattle.shr_audit_replies.specs.Answers.{MayReply};

use crate::entries::{Tenant, is_add, is_drop, is_look, is_pin, tenant_of};
use shr_audit_case::places::journal_at;
use shr_base::journals::{DropKind, Entry};
use shr_base::places::At;
use shr_base::replies::{Reply, Spent};
use shr_base::scripts::{Act, Command};
use shr_base::text::Text;
use shr_laws::report::Report;

// The entry that a reply cites, if it is of the id that was found and of the command's node.
fn entry_cited(report: &Report, tenant: Tenant, at: At) -> Option<&Entry>
    requires { AreInOrder report.now.places.items }
    ensures { (e : Entry) → Cites (journals_of report.now) at tenant.id tenant.target.node e
        ↔ (option_copied result ≡ Some e) }
{
    if at.place.id != tenant.id || at.place.node != tenant.target.node {
        return None;
    }
    journal_at(report, at.place).get(at.entry as usize)
}

// Whether a reply cites the Add of its command, with this outcome.
fn cites_add(report: &Report, tenant: Tenant, at: At, key: &Text, value: &Text, added: bool) -> bool
    requires { AreInOrder report.now.places.items }
    ensures { Decides result (Cites (journals_of report.now) at tenant.id tenant.target.node
        (Add (serial_of tenant.worker tenant.command) tenant.target.group added key.now value.now)) }
{
    match entry_cited(report, tenant, at) {
        Some(entry) => is_add(entry, tenant, key, value, added),
        None => false,
    }
}

// The same of a Look.
fn cites_look(report: &Report, tenant: Tenant, at: At, key: &Text, hit: bool) -> bool
    requires { AreInOrder report.now.places.items }
    ensures { Decides result (Cites (journals_of report.now) at tenant.id tenant.target.node
        (Look (serial_of tenant.worker tenant.command) tenant.target.group key.now hit)) }
{
    match entry_cited(report, tenant, at) {
        Some(entry) => is_look(entry, tenant, key, hit),
        None => false,
    }
}

// The same of a Drop.
fn cites_drop(report: &Report, tenant: Tenant, at: At, key: &Text, kind: DropKind) -> bool
    requires { AreInOrder report.now.places.items }
    ensures { Decides result (Cites (journals_of report.now) at tenant.id tenant.target.node
        (Drop (serial_of tenant.worker tenant.command) tenant.target.group key.now kind)) }
{
    match entry_cited(report, tenant, at) {
        Some(entry) => is_drop(entry, tenant, key, kind),
        None => false,
    }
}

// The same of a Pin.
fn cites_pin(report: &Report, tenant: Tenant, at: At, key: &Text, pinned: bool, hit: bool) -> bool
    requires { AreInOrder report.now.places.items }
    ensures { Decides result (Cites (journals_of report.now) at tenant.id tenant.target.node
        (Pin (serial_of tenant.worker tenant.command) tenant.target.group key.now pinned hit)) }
{
    match entry_cited(report, tenant, at) {
        Some(entry) => is_pin(entry, tenant, key, pinned, hit),
        None => false,
    }
}

// Whether a put may have this reply where a cache was found.
fn put_held(report: &Report, tenant: Tenant, key: &Text, value: &Text, reply: &Reply) -> bool
    requires { AreInOrder report.now.places.items }
    ensures { (parents : List ℕ) → Decides result (IsReply parents
        (journals_of report.now) (serial_of tenant.worker tenant.command)
        (Put tenant.target key.now value.now) (Some tenant.id) reply.now) }
{
    match reply {
        Reply::Added { at } => cites_add(report, tenant, *at, key, value, true),
        Reply::Exists { at } => cites_add(report, tenant, *at, key, value, false),
        Reply::Worn {
            spent: Spent::List { .. },
        } => true,
        Reply::Memory => true,
        _ => false,
    }
}

// The same of a get, but for the value of a hit.
fn get_held(report: &Report, tenant: Tenant, key: &Text, reply: &Reply) -> bool
    requires { AreInOrder report.now.places.items }
    ensures { (parents : List ℕ) → Decides result (MayReply parents
        (journals_of report.now) (serial_of tenant.worker tenant.command)
        (On tenant.target key.now Get) (Some tenant.id) reply.now) }
{
    match reply {
        Reply::Hit { at, .. } => cites_look(report, tenant, *at, key, true),
        Reply::Miss { at } => cites_look(report, tenant, *at, key, false),
        Reply::Worn {
            spent: Spent::List { .. },
        } => true,
        Reply::Memory => true,
        _ => false,
    }
}

// The same of a del.
fn del_held(report: &Report, tenant: Tenant, key: &Text, reply: &Reply) -> bool
    requires { AreInOrder report.now.places.items }
    ensures { (parents : List ℕ) → Decides result (IsReply parents
        (journals_of report.now) (serial_of tenant.worker tenant.command)
        (On tenant.target key.now Del) (Some tenant.id) reply.now) }
{
    match reply {
        Reply::Dropped { at } => cites_drop(report, tenant, *at, key, DropKind::Dropped),
        Reply::Pinned { at } => cites_drop(report, tenant, *at, key, DropKind::Pinned),
        Reply::Miss { at } => cites_drop(report, tenant, *at, key, DropKind::Miss),
        Reply::Worn {
            spent: Spent::List { .. },
        } => true,
        Reply::Memory => true,
        _ => false,
    }
}

// The same of a pin or an unpin.
fn pin_held(report: &Report, tenant: Tenant, key: &Text, pinned: bool, reply: &Reply) -> bool
    requires { AreInOrder report.now.places.items }
    ensures { (parents : List ℕ) → Decides result (IsReply parents
        (journals_of report.now) (serial_of tenant.worker tenant.command)
        (On tenant.target key.now (SetPin pinned)) (Some tenant.id) reply.now) }
{
    match reply {
        Reply::Done { at } => cites_pin(report, tenant, *at, key, pinned, true),
        Reply::Miss { at } => cites_pin(report, tenant, *at, key, pinned, false),
        Reply::Worn {
            spent: Spent::List { .. },
        } => true,
        Reply::Memory => true,
        _ => false,
    }
}

// The same of an act on the object of a key, but for the value of a hit.
fn on_held(report: &Report, tenant: Tenant, key: &Text, act: Act, reply: &Reply) -> bool
    requires { AreInOrder report.now.places.items }
    ensures { (parents : List ℕ) → Decides result (MayReply parents
        (journals_of report.now) (serial_of tenant.worker tenant.command)
        (On tenant.target key.now act) (Some tenant.id) reply.now) }
{
    match act {
        Act::Get => get_held(report, tenant, key, reply),
        Act::Del => del_held(report, tenant, key, reply),
        Act::SetPin { pinned } => pin_held(report, tenant, key, pinned, reply),
    }
}

// The same of an isolation, which cites nothing.
fn isolate_held(reply: &Reply) -> bool
    ensures { (parents : List ℕ) (family : Family) (by : Serial) (at : Target) (budget id : ℕ)
        → Decides result (IsReply parents family by
        (Isolate at budget) (Some id) reply.now) }
{
    match reply {
        Reply::Isolated { .. } => true,
        _ => false,
    }
}

/// Whether a command may have this reply where the cache with this id was found, whatever value a
/// hit lends.
pub fn may_held(
    report: &Report,
    worker: usize,
    number: usize,
    id: u16,
    command: &Command,
    reply: &Reply,
) -> bool
    requires { AreInOrder report.now.places.items }
    ensures { (parents : List ℕ) → Decides result (MayReply parents (journals_of report.now)
        (serial_of worker number) command.now (Some id) reply.now) }
{
    match command {
        Command::Put { at, key, value } => {
            let tenant = tenant_of(worker, number, *at, id);
            put_held(report, tenant, key, value, reply)
        }
        Command::On { at, key, act } => {
            let tenant = tenant_of(worker, number, *at, id);
            on_held(report, tenant, key, *act, reply)
        }
        Command::Isolate { .. } => isolate_held(reply),
        _ => false,
    }
}
