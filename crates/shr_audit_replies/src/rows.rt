// SPDX-License-Identifier: GPL-2.0-only
//! Which replies a command may have.

ghost use Rattle.std.specs.Prelude.{ℕ, List, Bool, None};
ghost use Rattle.std.specs.Bool.{Decides};
ghost use Rattle.shr_base.specs.declared.places.Serial.{Serial};
ghost use Rattle.shr_base.specs.declared.places.Target.{Target};
ghost use Rattle.shr_base.specs.declared.scripts.Act.TheVariants.{Del, Get, SetPin};
ghost use Rattle.shr_base.specs.declared.scripts.Command.TheVariants.{Balance, Grab, Isolate, MkGroup, Offline, On, Put, Register, Release, Shrink, Unregister};
ghost use Rattle.shr_model.specs.Families.{Family};
ghost use Rattle.shr_laws.specs.ReplyTable.{IsReply};
ghost use Rattle.shr_audit_replies.specs.Answers.{MayReply};

use shr_base::replies::{Reply, Spent};
use shr_base::scripts::{Act, Command};

fn put_unheld(reply: &Reply) -> bool
    ensures { (parents : List ℕ) (family : Family) (by : Serial) (at : Target)
        (key value : List ℕ)
        → Decides result (IsReply parents family by (Put at key value) None reply.now) }
{
    match reply {
        Reply::Over { .. } => true,
        Reply::Offline { .. } => true,
        Reply::NotMade { .. } => true,
        Reply::NoCache { .. } => true,
        Reply::Worn {
            spent: Spent::Lookups { .. },
        } => true,
        Reply::Worn {
            spent: Spent::Charges { .. },
        } => true,
        Reply::Memory => true,
        _ => false,
    }
}

fn get_unheld(reply: &Reply) -> bool
    ensures { (parents : List ℕ) (family : Family) (by : Serial) (at : Target)
        (key : List ℕ)
        → Decides result (IsReply parents family by (On at key Get) None reply.now) }
{
    match reply {
        Reply::Offline { .. } => true,
        Reply::NotMade { .. } => true,
        Reply::NoCache { .. } => true,
        Reply::Worn {
            spent: Spent::Lookups { .. },
        } => true,
        Reply::Memory => true,
        _ => false,
    }
}

fn del_unheld(reply: &Reply) -> bool
    ensures { (parents : List ℕ) (family : Family) (by : Serial) (at : Target)
        (key : List ℕ)
        → Decides result (IsReply parents family by (On at key Del) None reply.now) }
{
    match reply {
        Reply::Offline { .. } => true,
        Reply::NotMade { .. } => true,
        Reply::NoCache { .. } => true,
        Reply::Worn {
            spent: Spent::Lookups { .. },
        } => true,
        Reply::Worn {
            spent: Spent::Charges { .. },
        } => true,
        Reply::Memory => true,
        _ => false,
    }
}

fn pin_unheld(reply: &Reply) -> bool
    ensures { (parents : List ℕ) (family : Family) (by : Serial) (at : Target)
        (key : List ℕ) (pinned : Bool)
        → Decides result (IsReply parents family by (On at key (SetPin pinned)) None reply.now) }
{
    match reply {
        Reply::Offline { .. } => true,
        Reply::NotMade { .. } => true,
        Reply::NoCache { .. } => true,
        Reply::Worn {
            spent: Spent::Lookups { .. },
        } => true,
        Reply::Memory => true,
        _ => false,
    }
}

fn on_unheld(act: Act, reply: &Reply) -> bool
    ensures { (parents : List ℕ) (family : Family) (by : Serial) (at : Target)
        (key : List ℕ)
        → Decides result (MayReply parents family by (On at key act) None reply.now) }
{
    match act {
        Act::Get => get_unheld(reply),
        Act::Del => del_unheld(reply),
        Act::SetPin { .. } => pin_unheld(reply),
    }
}

fn shrink_unheld(reply: &Reply) -> bool
    ensures { (parents : List ℕ) (family : Family) (by : Serial) (group node priority : ℕ)
        (nofs : Bool)
        → Decides result (IsReply parents family by
        (Shrink group node priority nofs) None reply.now) }
{
    match reply {
        Reply::Walked { .. } => true,
        Reply::WalkMemory { .. } => true,
        Reply::Offline { .. } => true,
        _ => false,
    }
}

fn balance_unheld(reply: &Reply) -> bool
    ensures { (parents : List ℕ) (family : Family) (by : Serial) (node priority : ℕ) (nofs : Bool)
        → Decides result (IsReply parents family by (Balance node priority nofs) None reply.now) }
{
    match reply {
        Reply::Walked { .. } => true,
        Reply::WalkMemory { .. } => true,
        _ => false,
    }
}

fn offline_unheld(reply: &Reply) -> bool
    ensures { (parents : List ℕ) (family : Family) (by : Serial) (group : ℕ)
        → Decides result (IsReply parents family by (Offline group) None reply.now) }
{
    match reply {
        Reply::OfflineDone { .. } => true,
        Reply::AlreadyDone { .. } => true,
        Reply::Root => true,
        Reply::NotMade { .. } => true,
        Reply::HasChildren { .. } => true,
        Reply::Worn {
            spent: Spent::List { .. },
        } => true,
        Reply::Memory => true,
        _ => false,
    }
}

fn mkgroup_unheld(reply: &Reply) -> bool
    ensures { (parents : List ℕ) (family : Family) (by : Serial) (group : ℕ)
        → Decides result (IsReply parents family by (MkGroup group) None reply.now) }
{
    match reply {
        Reply::Made { .. } => true,
        Reply::AlreadyMade { .. } => true,
        Reply::NotMade { .. } => true,
        Reply::Offline { .. } => true,
        Reply::Memory => true,
        _ => false,
    }
}

fn register_unheld(reply: &Reply) -> bool
    ensures { (parents : List ℕ) (family : Family) (by : Serial) (decl : ℕ)
        → Decides result (IsReply parents family by (Register decl) None reply.now) }
{
    match reply {
        Reply::Registered { .. } => true,
        Reply::AlreadyRegistered { .. } => true,
        Reply::NoId { .. } => true,
        Reply::Memory => true,
        _ => false,
    }
}

fn unregister_unheld(reply: &Reply) -> bool
    ensures { (parents : List ℕ) (family : Family) (by : Serial) (decl : ℕ)
        → Decides result (IsReply parents family by (Unregister decl) None reply.now) }
{
    match reply {
        Reply::Freed { .. } => true,
        Reply::Half { .. } => true,
        Reply::NoCache { .. } => true,
        Reply::Worn {
            spent: Spent::Charges { .. },
        } => true,
        Reply::Memory => true,
        _ => false,
    }
}

fn release_unheld(reply: &Reply) -> bool
    ensures { (parents : List ℕ) (family : Family) (by : Serial) (node pool units : ℕ)
        → Decides result (IsReply parents family by (Release node pool units) None reply.now) }
{
    match reply {
        Reply::Released { .. } => true,
        Reply::Full { .. } => true,
        Reply::Worn {
            spent: Spent::List { .. },
        } => true,
        Reply::Memory => true,
        _ => false,
    }
}

fn grab_unheld(reply: &Reply) -> bool
    ensures { (parents : List ℕ) (family : Family) (by : Serial) (node pool : ℕ)
        → Decides result (IsReply parents family by (Grab node pool) None reply.now) }
{
    match reply {
        Reply::Grabbed { .. } => true,
        Reply::Bare { .. } => true,
        Reply::Worn {
            spent: Spent::List { .. },
        } => true,
        Reply::Memory => true,
        _ => false,
    }
}

fn isolate_unheld(reply: &Reply) -> bool
    ensures { (parents : List ℕ) (family : Family) (by : Serial) (at : Target)
        (budget : ℕ)
        → Decides result (IsReply parents family by (Isolate at budget) None reply.now) }
{
    match reply {
        Reply::Offline { .. } => true,
        Reply::NotMade { .. } => true,
        Reply::NoCache { .. } => true,
        Reply::Worn {
            spent: Spent::Lookups { .. },
        } => true,
        Reply::Memory => true,
        _ => false,
    }
}

/// Whether a command may have this reply where no cache was found.
pub fn may_unheld(command: &Command, reply: &Reply) -> bool
    ensures { (parents : List ℕ) (family : Family) (by : Serial)
        → Decides result (MayReply parents family by command.now None reply.now) }
{
    match command {
        Command::Put { .. } => put_unheld(reply),
        Command::On { act, .. } => on_unheld(*act, reply),
        Command::Shrink { .. } => shrink_unheld(reply),
        Command::Balance { .. } => balance_unheld(reply),
        Command::Offline { .. } => offline_unheld(reply),
        Command::MkGroup { .. } => mkgroup_unheld(reply),
        Command::Register { .. } => register_unheld(reply),
        Command::Unregister { .. } => unregister_unheld(reply),
        Command::Isolate { .. } => isolate_unheld(reply),
        Command::Release { .. } => release_unheld(reply),
        Command::Grab { .. } => grab_unheld(reply),
    }
}
