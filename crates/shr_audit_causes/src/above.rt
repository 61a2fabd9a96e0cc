// SPDX-License-Identifier: GPL-2.0-only
//! The workers that may have begun the offlining of a group above another.

ghost use Rattle.std.specs.Prelude.{◌≡◌, ◌<◌, length, slice_index_or, IfOk};
ghost use Rattle.shr_model.specs.Trees.{IsTree};
ghost use Rattle.shr_model.specs.Groups.{parent_of};
ghost use Rattle.shr_laws.specs.Parts.{parents_of};
ghost use Rattle.shr_audit_reasons.specs.Cites.{cited_in};
ghost use Rattle.shr_audit_causes.specs.declared.above.Whose.TheVariants.{Nobody};
ghost use Rattle.shr_audit_causes.specs.Above.{AreAbove, either, is_only, whose_of};

use shr_audit_case::serials::parents_of;
use shr_audit_reasons::cites::{Cited, What, cited_at, note_answers};
use shr_base::memory::Memory;
use shr_base::scripts::Script;
use shr_laws::report::Report;
use std::alloc::Global;

/// The workers of which something is so: none, just one, or more.
#[derive(Clone, Copy, Debug, PartialEq, Eq)]
pub(crate) enum Whose {
    Nobody,
    One { worker: usize },
    Several,
}

// The workers of the commands that are noted.
fn whose_of(cited: Cited) -> Whose
    ensures { result ≡ whose_of cited }
{
    match cited {
        Cited::Never => Whose::Nobody,
        Cited::Once { worker, .. } => Whose::One { worker },
        Cited::Often { worker, others, .. } => {
            if others {
                Whose::Several
            } else {
                Whose::One { worker }
            }
        }
    }
}

// Those of which the one or the other is so.
fn either(a: Whose, b: Whose) -> Whose
    ensures { result ≡ either a b }
{
    match a {
        Whose::Nobody => b,
        Whose::Several => Whose::Several,
        Whose::One { worker: v } => match b {
            Whose::Nobody => a,
            Whose::Several => Whose::Several,
            Whose::One { worker: w } => { if v == w { a } else { Whose::Several } }
        },
    }
}

/// Whether it is so of no other worker.
pub(crate) fn is_only(whose: Whose, worker: usize) -> bool
    ensures { result ≡ is_only whose worker }
{
    match whose {
        Whose::Nobody => true,
        Whose::One { worker: v } => v == worker,
        Whose::Several => false,
    }
}

// The parent of a group, the root for one that isn't there.
fn parent_in(parents: &[u16], group: usize) -> usize
    ensures { result ≡ parent_of parents.now group }
{
    match parents.get(group) {
        Some(parent) => *parent as usize,
        None => 0,
    }
}

// Those above a group: at its parent, or above that.
fn next_of(above: &Vec<Whose>, begun: &[Cited], parent: usize) -> Whose
    requires { parent < length above.now.items }
    ensures { result ≡ either (slice_index_or above.now.items parent Nobody)
        (whose_of (cited_in begun.now parent)) }
{
    let own = whose_of(cited_at(begun, parent));
    either(above[parent], own)
}

/// The workers that may have begun the offlining of a group above another, for each of 65,536
/// groups. It goes through the answers once, and then from the root down.
pub(crate) fn above_of(
    alloc: Global,
    script: &Script,
    report: &Report,
) -> Result<Vec<Whose>, Memory>
    requires { IsTree (parents_of script.now) }
    ensures { IfOk result (λ above. AreAbove script.now report.now above.items) }
{
    let begun = note_answers(alloc, script, report, What::Begun, 65536)?;
    let parents = parents_of(alloc, script)?;
    let mut above = Vec::new(alloc);
    above.push(Whose::Nobody)?;
    for group in 1..65536 {
        let parent = parent_in(parents.as_slice(), group);
        let whose = next_of(&above, begun.as_slice(), parent);
        above.push(whose)?;
    }
    Ok(above)
}
