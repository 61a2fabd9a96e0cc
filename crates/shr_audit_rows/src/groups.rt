// SPDX-License-Identifier: GPL-2.0-only
//! What a reply says of a group.

ghost use Rattle.std.specs.Prelude.{◌≡◌};
ghost use Rattle.std.specs.Bool.{Decides};
ghost use Rattle.std.specs.Option.{IsSomeAnd};
ghost use Rattle.shr_base.specs.declared.journals.TreeEntry.TheVariants.{Begin, Done, Made};
ghost use Rattle.shr_model.specs.Groups.{is_later};
ghost use Rattle.shr_laws.specs.Causes.{IsUnmade, StandsInTree};
ghost use Rattle.shr_laws.specs.Parts.{later_of};

use shr_audit_reasons::tree::{is_begin_of, is_done_of, is_made_of};
use shr_base::scripts::Script;
use shr_laws::report::Report;

/// Whether an entry of the journal of the tree is the Begin of the group, if there is one.
pub fn is_begin_there(report: &Report, group: Option<u16>, entry: u32) -> bool
    ensures { Decides result (IsSomeAnd group (λ g. StandsInTree report.now entry (Begin g))) }
{
    match group {
        Some(g) => is_begin_of(report, entry, g),
        None => false,
    }
}

/// Whether it is its Done.
pub fn is_done_there(report: &Report, group: Option<u16>, entry: u32) -> bool
    ensures { Decides result (IsSomeAnd group (λ g. StandsInTree report.now entry (Done g))) }
{
    match group {
        Some(g) => is_done_of(report, entry, g),
        None => false,
    }
}

/// Whether it is its Made.
pub fn is_made_there(report: &Report, group: Option<u16>, entry: u32) -> bool
    ensures { Decides result (IsSomeAnd group (λ g. StandsInTree report.now entry (Made g))) }
{
    match group {
        Some(g) => is_made_of(report, entry, g),
        None => false,
    }
}

/// Whether a group isn't there at the start.
pub(crate) fn is_later(script: &Script, group: usize) -> bool
    ensures { result ≡ is_later (later_of script.now) group }
{
    if group == 0 {
        return false;
    }
    match script.groups.get(group - 1) {
        Some(decl) => decl.later,
        None => false,
    }
}

/// Whether a group is the one that a reply calls not made, and isn't there at the start.
pub fn is_unmade(script: &Script, group: Option<u16>, named: u16) -> bool
    ensures { Decides result (IsSomeAnd group (λ g. IsUnmade script.now g named)) }
{
    match group {
        Some(g) => named == g && is_later(script, g as usize),
        None => false,
    }
}

/// Whether it is the root.
pub fn is_root(group: Option<u16>) -> bool
    ensures { Decides result (IsSomeAnd group (λ g. g ≡ 0)) }
{
    match group {
        Some(g) => g == 0,
        None => false,
    }
}
