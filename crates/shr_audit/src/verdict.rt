// SPDX-License-Identifier: GPL-2.0-only
//! What an auditor says.

ghost use Rattle.std.specs.Prelude.{◌≡◌};
ghost use Rattle.shr_audit.specs.Verdict.{law_number};

use shr_base::scripts::Code;

/// A law of a report, in the order in which an auditor asks them. The number beside each is that of a
/// verdict.
#[derive(Clone, Copy, Debug, PartialEq, Eq)]
pub enum Law {
    /// 1: each command has its answer, and each answer speaks of an entry that is there.
    Replies,
    /// 2: each entry of a list may stand where it does, and what is printed is what is left.
    Journals,
    /// 3: each object added was freed once or is listed once.
    Bag,
    /// 4: the walks of each command, and each walk by itself.
    Walks,
    /// 5: registrations, and what the lookups of each id met.
    Lookups,
    /// 6: what the operations of each group and each command come to.
    Charges,
    /// 7: what passes and carries leave deferred.
    Deferred,
    /// 8: the bit of each list that has objects.
    Bits,
    /// 9: each answer, and each outcome of a walk, has its reason in the report.
    Causes,
    /// 10: pools of units.
    Pools,
    /// 11: isolations.
    Isolations,
    /// 12: the sweep.
    Sweep,
}

/// The laws in the order in which an auditor asks them.
pub const LAWS: [Law; 12] = [
    Law::Replies,
    Law::Journals,
    Law::Bag,
    Law::Walks,
    Law::Lookups,
    Law::Charges,
    Law::Deferred,
    Law::Bits,
    Law::Causes,
    Law::Pools,
    Law::Isolations,
    Law::Sweep,
];

impl Law {
    /// The number of the law in a verdict, from 1 to 12.
    pub fn number(self) -> u8
        ensures { result ≡ law_number self }
    {
        match self {
            Law::Replies => 1,
            Law::Journals => 2,
            Law::Bag => 3,
            Law::Walks => 4,
            Law::Lookups => 5,
            Law::Charges => 6,
            Law::Deferred => 7,
            Law::Bits => 8,
            Law::Causes => 9,
            Law::Pools => 10,
            Law::Isolations => 11,
            Law::Sweep => 12,
        }
    }
}

/// What is said of bytes that are given as a script and as a report. Of any two byte strings one of
/// these alone is so (`one_verdict`).
#[derive(Clone, Copy, Debug, PartialEq, Eq)]
pub enum Verdict {
    /// The script is valid, the report is one, and all laws hold of the two.
    Lawful,
    /// The script's first bad line, counted from 1, and what is wrong with it.
    BadScript { line: u32, code: Code },
    /// The script is valid, and the other bytes are the text of no report.
    BadReport,
    /// Both are read, and this is the first law that doesn't hold of the two.
    Unlawful { clause: Law },
}
