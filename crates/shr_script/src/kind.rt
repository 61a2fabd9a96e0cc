// SPDX-License-Identifier: GPL-2.0-only
//! The kinds of lines, and which may stand where.

ghost use Rattle.std.specs.Prelude.{◌≡◌};
ghost use Rattle.shr_words.specs.WordReading.{Gives};
ghost use Rattle.shr_script.specs.LineReading.{kind_of, verb_of, kind_at};
ghost use Rattle.shr_script.specs.Lines.{before_workers, among_workers, misplaced, unknown, is_served};

use shr_base::scripts::{Act, Code};

/// What a worker is told to do, by the first word of a command's line.
#[derive(Clone, Copy)]
pub enum Verb {
    Put,
    /// `get`, `del`, `pin` or `unpin`.
    On(Act),
    Shrink,
    Balance,
    Offline,
    MkGroup,
    Register,
    Unregister,
    Isolate,
    Release,
    Grab,
}

/// What a line is, by its first word. `Work` is a command's.
#[derive(Clone, Copy)]
pub enum Kind {
    Header,
    Size,
    /// `group`, or `later`.
    Group { later: bool },
    Cache,
    Pool,
    Worker,
    Work(Verb),
    Sweep,
    End,
}

/// How far a script has come: which lines may follow.
#[derive(Clone, Copy)]
pub enum Phase {
    Start,
    Sizes,
    Groups,
    Caches,
    Pools,
    Workers,
    Swept,
    Done,
}

// Version 2 has three parts more than version 1, and each is served or not.
const SERVES_POOLS: bool = true;

const SERVES_ISOLATION: bool = true;

const SERVES_SWEEP: bool = true;

#[tactic(auto, unfolding(crate::specs::LineReading::verb_of))]
fn verb_of(word: &[u8]) -> Option<Verb>
    ensures { result ≡ verb_of word.now }
{
    if word == b"put".as_slice() {
        Some(Verb::Put)
    } else if word == b"get".as_slice() {
        Some(Verb::On(Act::Get))
    } else if word == b"del".as_slice() {
        Some(Verb::On(Act::Del))
    } else if word == b"pin".as_slice() {
        Some(Verb::On(Act::SetPin { pinned: true }))
    } else if word == b"unpin".as_slice() {
        Some(Verb::On(Act::SetPin { pinned: false }))
    } else if word == b"shrink".as_slice() {
        Some(Verb::Shrink)
    } else if word == b"balance".as_slice() {
        Some(Verb::Balance)
    } else if word == b"offline".as_slice() {
        Some(Verb::Offline)
    } else if word == b"mkgroup".as_slice() {
        Some(Verb::MkGroup)
    } else if word == b"register".as_slice() {
        Some(Verb::Register)
    } else if word == b"unregister".as_slice() {
        Some(Verb::Unregister)
    } else if word == b"isolate".as_slice() {
        Some(Verb::Isolate)
    } else if word == b"release".as_slice() {
        Some(Verb::Release)
    } else if word == b"grab".as_slice() {
        Some(Verb::Grab)
    } else {
        None
    }
}

#[tactic(auto, unfolding(crate::specs::LineReading::kind_of))]
fn kind_of(word: &[u8]) -> Option<Kind>
    ensures { result ≡ kind_of word.now }
{
    if word == b"shrinkers".as_slice() {
        Some(Kind::Header)
    } else if word == b"size".as_slice() {
        Some(Kind::Size)
    } else if word == b"group".as_slice() {
        Some(Kind::Group { later: false })
    } else if word == b"later".as_slice() {
        Some(Kind::Group { later: true })
    } else if word == b"cache".as_slice() {
        Some(Kind::Cache)
    } else if word == b"pool".as_slice() {
        Some(Kind::Pool)
    } else if word == b"worker".as_slice() {
        Some(Kind::Worker)
    } else if word == b"sweep".as_slice() {
        Some(Kind::Sweep)
    } else if word == b"end".as_slice() {
        Some(Kind::End)
    } else {
        verb_of(word).map(Kind::Work)
    }
}

// Why a line may not stand between the size and the first worker, group lines aside.
fn before_workers(kind: Kind) -> Option<Code>
    ensures { result ≡ before_workers kind }
{
    match kind {
        Kind::Header | Kind::Size | Kind::Group { .. } => Some(Code::UnknownWord),
        Kind::Cache | Kind::Pool | Kind::Worker | Kind::End => None,
        Kind::Work(_) | Kind::Sweep => Some(Code::NoWorker),
    }
}

// Why a line may not stand behind the first worker.
fn among_workers(kind: Kind) -> Option<Code>
    ensures { result ≡ among_workers kind }
{
    match kind {
        Kind::Header | Kind::Size | Kind::Group { .. } | Kind::Cache | Kind::Pool => {
            Some(Code::UnknownWord)
        }
        _ => None,
    }
}

fn misplaced(phase: Phase, kind: Kind) -> Option<Code>
    ensures { result ≡ misplaced phase kind }
{
    match (phase, kind) {
        (Phase::Start, Kind::Header) | (Phase::Sizes, Kind::Size) => None,
        (Phase::Start | Phase::Sizes, _) => Some(Code::BadHeader),
        (Phase::Groups, Kind::Group { .. }) => None,
        (Phase::Pools, Kind::Cache) => Some(Code::UnknownWord),
        (Phase::Groups | Phase::Caches | Phase::Pools, _) => before_workers(kind),
        (Phase::Workers, _) => among_workers(kind),
        (Phase::Swept, Kind::End) => None,
        (Phase::Swept, _) => Some(Code::UnknownWord),
        (Phase::Done, _) => Some(Code::Trailing),
    }
}

fn unknown(phase: Phase) -> Code
    ensures { result ≡ unknown phase }
{
    match phase {
        Phase::Start | Phase::Sizes => Code::BadHeader,
        Phase::Done => Code::Trailing,
        _ => Code::UnknownWord,
    }
}

// Whether lines of a kind are taken in a script of this version.
fn is_served(version: u8, kind: Kind) -> bool
    ensures { result ≡ is_served version kind }
{
    match kind {
        Kind::Pool | Kind::Work(Verb::Release | Verb::Grab) => SERVES_POOLS && version == 2,
        Kind::Work(Verb::Isolate) => SERVES_ISOLATION && version == 2,
        Kind::Sweep => SERVES_SWEEP && version == 2,
        _ => true,
    }
}

/// The kind that a first word names, where such a line may stand in a script of this version.
#[tactic(auto, unfolding(crate::specs::LineReading::kind_at))]
pub fn kind_at(version: u8, phase: Phase, word: &[u8]) -> Result<Kind, Code>
    ensures { Gives (λ k. k) result (kind_at version phase word.now) }
{
    let Some(kind) = kind_of(word) else {
        return Err(unknown(phase));
    };
    if !is_served(version, kind) {
        return Err(unknown(phase));
    }
    match misplaced(phase, kind) {
        None => Ok(kind),
        Some(code) => Err(code),
    }
}
