// SPDX-License-Identifier: GPL-2.0-only
//! The attempts of walks.

ghost use Rattle.std.specs.Prelude.{◌≡◌, ℕ};
ghost use Rattle.shr_base.specs.Packed.{outcome_in};
ghost use Rattle.shr_base.specs.declared.walks.Outcome.TheVariants.{Gone};
ghost use Rattle.shr_base.specs.declared.walks.PassRecord.{PassRecord};

use crate::packed::ShortPass;
use crate::walks::{GoneThen, Outcome};
use std::marker::Model;

// Which outcome it is.
#[derive(Clone, Copy)]
enum Kind {
    Worn,
    GoneSet,
    GoneClear,
    GoneRoot,
    Skip,
    Ran,
    Empty,
    Cleared,
    RestoredSkip,
    RestoredRan,
}

/// An attempt of a walk at one id. A walk of the root keeps one for each id, so it has 76 bytes,
/// where its outcome has 88. Contracts see its id and its outcome.
///
/// Linux: a turn of the loop in `shrink_slab_memcg` of mm/shrinker.c.
#[derive(Drop)]
pub struct Attempt {
    pub id: u16,
    kind: Kind,
    number: u32,
    first: u32,
    pass: ShortPass,
}

impl Model for Attempt {
    ghost use Rattle.shr_base.specs.Walks.{Attempt as Tried};
    ghost use Rattle.shr_base.specs.Packed.{outcome_in};

    ghost Value = { Tried };

    ghost view = { λ a. record { id = a.id; outcome = outcome_in a.kind a.number a.first a.pass } };
}

fn packed(id: u16, kind: Kind, number: u32, first: u32, pass: ShortPass) -> Attempt
    ensures { result ≡ record { id = id; outcome = outcome_in kind number first pass } }
{
    Attempt {
        id,
        kind,
        number,
        first,
        pass,
    }
}

// Which outcome it is that an id was gone.
fn gone(then: GoneThen) -> Kind
    ensures { (number first : ℕ) (pass : PassRecord) → outcome_in result number first pass ≡ Gone number then }
{
    match then {
        GoneThen::Set => Kind::GoneSet,
        GoneThen::Clear => Kind::GoneClear,
        GoneThen::Root => Kind::GoneRoot,
    }
}

impl Attempt {
    /// An attempt at this id that came to this.
    pub fn new(id: u16, outcome: Outcome) -> Attempt
        ensures { result ≡ record { id = id; outcome = outcome } }
    {
        let none = ShortPass::unmade(0, 0);
        match outcome {
            Outcome::Worn { seen } => packed(id, Kind::Worn, seen, 0, none),
            Outcome::Gone { number, then } => packed(id, gone(then), number, 0, none),
            Outcome::Skip {
                number,
                len,
                version,
            } => packed(id, Kind::Skip, number, 0, ShortPass::unmade(len, version)),
            Outcome::Ran { number, pass } => {
                packed(id, Kind::Ran, number, 0, ShortPass::of(&pass))
            }
            Outcome::Empty { number, version } => {
                packed(id, Kind::Empty, number, 0, ShortPass::unmade(0, version))
            }
            Outcome::Cleared {
                number,
                first,
                second,
            } => packed(
                id,
                Kind::Cleared,
                number,
                first,
                ShortPass::unmade(0, second),
            ),
            Outcome::RestoredSkip {
                number,
                first,
                len,
                version,
            } => packed(
                id,
                Kind::RestoredSkip,
                number,
                first,
                ShortPass::unmade(len, version),
            ),
            Outcome::RestoredRan {
                number,
                first,
                pass,
            } => packed(id, Kind::RestoredRan, number, first, ShortPass::of(&pass)),
        }
    }

    /// What it came to.
    #[inline(always)]
    pub fn outcome(&self) -> Outcome
        ensures { result ≡ self.now.outcome }
    {
        let number = self.number;
        let first = self.first;
        let len = self.pass.len;
        let version = self.pass.version;
        match self.kind {
            Kind::Worn => Outcome::Worn { seen: number },
            Kind::GoneSet => Outcome::Gone {
                number,
                then: GoneThen::Set,
            },
            Kind::GoneClear => Outcome::Gone {
                number,
                then: GoneThen::Clear,
            },
            Kind::GoneRoot => Outcome::Gone {
                number,
                then: GoneThen::Root,
            },
            Kind::Skip => Outcome::Skip {
                number,
                len,
                version,
            },
            Kind::Ran => Outcome::Ran {
                number,
                pass: self.pass.get(),
            },
            Kind::Empty => Outcome::Empty { number, version },
            Kind::Cleared => Outcome::Cleared {
                number,
                first,
                second: version,
            },
            Kind::RestoredSkip => Outcome::RestoredSkip {
                number,
                first,
                len,
                version,
            },
            Kind::RestoredRan => Outcome::RestoredRan {
                number,
                first,
                pass: self.pass.get(),
            },
        }
    }
}
