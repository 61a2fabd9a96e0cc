// SPDX-License-Identifier: GPL-2.0-only
//! The entries of pools' journals that replies cite.

ghost use Rattle.std.specs.Prelude.{◌≡◌, ◌<◌, Some, option_copied, option_map, slice_get, IfSome};
ghost use Rattle.std.specs.Bool.{Decides};
ghost use Rattle.shr_laws.specs.UnitParts.{units_cited, units_cited_at, units_journal};
ghost use Rattle.shr_laws.specs.Parts.{at};
ghost use Rattle.shr_audit_pools.specs.Cited.{cite_at};
ghost use Rattle.shr_audit_pools.specs.Places.{AreKept, named_place};

use crate::places::{PoolPlace, entries_at};
use shr_audit_case::serials::answer_at;
use shr_base::journals::PlainEntry;
use shr_base::places::Serial;
use shr_base::replies::Reply;
use shr_laws::report::Report;

/// An entry of the journal of a pool on a node, by its number.
#[derive(Clone, Copy, Debug, PartialEq, Eq)]
pub struct Cite {
    pub place: PoolPlace,
    pub entry: u32,
}

impl Cite {
    /// What the two numbers of a pool on a node and that of an entry name.
    pub(crate) fn new(pool: u8, node: u8, entry: u32) -> Cite
        ensures pool { result.place.pool ≡ pool }
        ensures node { result.place.node ≡ node }
        ensures entry { result.entry ≡ entry }
        ensures small { result.place.node < 256 }
    {
        Cite {
            place: PoolPlace { pool, node },
            entry,
        }
    }
}

/// The entry that a reply cites.
pub(crate) fn cited_by(reply: &Reply) -> Option<Cite>
    ensures cited { option_map cite_at result ≡ units_cited reply.now }
    ensures small { IfSome result (λ c. c.place.node < 256) }
{
    match *reply {
        Reply::Released { pool, node, entry } => Some(Cite::new(pool, node, entry)),
        Reply::Grabbed { pool, node, entry } => Some(Cite::new(pool, node, entry)),
        Reply::Bare { pool, node, entry } => Some(Cite::new(pool, node, entry)),
        _ => None,
    }
}

/// The entry of a pool on a node with this number.
pub(crate) fn entry_at(report: &Report, cite: Cite) -> Option<&PlainEntry>
    requires { AreKept report.now }
    ensures { option_copied result
        ≡ slice_get (units_journal report.now (named_place cite.place)) cite.entry }
{
    entries_at(report, cite.place).get(cite.entry as usize)
}

/// Whether the reply to a command cites the entry of a pool on a node with this number.
pub(crate) fn is_cited(report: &Report, by: Serial, place: PoolPlace, number: usize) -> bool
    ensures { Decides result (units_cited_at report.now by ≡ Some (at (named_place place) number)) }
{
    let Some(answer) = answer_at(report, by) else {
        return false;
    };
    match cited_by(&answer.reply) {
        Some(cite) => cite.place == place && cite.entry as usize == number,
        None => false,
    }
}
