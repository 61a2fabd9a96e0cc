// SPDX-License-Identifier: GPL-2.0-only
//! What a walk found.

ghost use Rattle.std.specs.Prelude.{◌≡◌, ◌+◌, ◌<◌, ◌≤◌, ◌++◌, ◌∷◌, [], IfOk, OnOk};

use crate::attempts::Attempt;
use crate::log::Log;
use crate::memory::Memory;
use crate::walks::MapSeen;
use std::alloc::Global;
use std::marker::Model;

// Maps and attempts in a box.
#[derive(Drop)]
struct Lists {
    maps: Log<MapSeen>,
    attempts: Log<Attempt>,
}

// Nothing, one map without an attempt, or more.
#[derive(Drop)]
enum Few {
    Nothing,
    Map { seen: [MapSeen; 1] },
    More { lists: Box<Lists> },
}

/// The maps that a walk loaded, and its attempts. Most walks load one map and try nothing: that
/// takes no memory. Contracts see both as lists with their spare.
#[derive(Drop)]
pub struct Found {
    few: Few,
}

impl Model for Found {
    ghost use Rattle.shr_base.specs.Found.{WalkFinds, walk_finds};

    ghost Value = { WalkFinds };

    ghost view = { λ f. walk_finds f.few };
}

// A box with these maps, and with room for just so many maps and attempts more.
fn lists_of(
    alloc: Global,
    front: &[MapSeen],
    maps: usize,
    attempts: usize,
) -> Result<Box<Lists>, Memory>
    ensures maps { IfOk result (λ b. b.value.maps.items ≡ front.now) }
    ensures attempts { IfOk result (λ b. b.value.attempts.items ≡ []) }
    ensures map_room { IfOk result (λ b. maps ≤ b.value.maps.spare) }
    ensures room { IfOk result (λ b. attempts ≤ b.value.attempts.spare) }
{
    let mut lists = Lists {
        maps: Log::from_vec(Vec::from_slice(alloc, front)?),
        attempts: Log::new(alloc),
    };
    lists.maps.reserve_exact(maps)?;
    lists.attempts.reserve_exact(attempts)?;
    Ok(Box::new(alloc, lists)?)
}

impl Found {
    /// No map and no attempt. It takes no memory.
    pub fn new() -> Found
        ensures maps { result.maps.items ≡ [] }
        ensures attempts { result.attempts.items ≡ [] }
    {
        Found { few: Few::Nothing }
    }

    /// The maps and attempts of these lists, in as little memory as it can.
    pub fn of(alloc: Global, maps: Log<MapSeen>, attempts: Log<Attempt>) -> Result<Found, Memory>
        ensures maps { IfOk result (λ found. found.maps.items ≡ maps.items) }
        ensures attempts { IfOk result (λ found. found.attempts.items ≡ attempts.items) }
    {
        if attempts.len() == 0 {
            match maps.as_slice() {
                [] => return Ok(Found::new()),
                [map] => {
                    return Ok(Found {
                        few: Few::Map { seen: [*map] },
                    });
                }
                _ => {}
            }
        }
        let lists = Box::new(alloc, Lists { maps, attempts })?;
        Ok(Found {
            few: Few::More { lists },
        })
    }

    /// The maps.
    pub fn maps(&self) -> &[MapSeen]
        ensures { result.now ≡ self.now.maps.items }
    {
        match &self.few {
            Few::Nothing => &[],
            Few::Map { seen } => &seen[..],
            Few::More { lists } => lists.maps.as_slice(),
        }
    }

    /// The attempts.
    pub fn attempts(&self) -> &[Attempt]
        ensures { result.now ≡ self.now.attempts.items }
    {
        match &self.few {
            Few::More { lists } => lists.attempts.as_slice(),
            _ => &[],
        }
    }

    /// Makes room for one map more. The maps and attempts stay, on `Memory` too.
    pub fn reserve_map(&mut self, alloc: Global) -> Result<(), Memory>
        ensures maps { self.new.maps.items ≡ self.old.maps.items }
        ensures attempts { self.new.attempts.items ≡ self.old.attempts.items }
        ensures room { OnOk result (0 < self.new.maps.spare) }
    {
        match &mut self.few {
            Few::Nothing => {}
            Few::Map { seen } => {
                let lists = lists_of(alloc, &seen[..], 1, 0)?;
                self.few = Few::More { lists };
            }
            Few::More { lists } => lists.maps.reserve_exact(1)?,
        }
        Ok(())
    }

    /// Puts another map at the end, in the room that was made for it.
    pub fn push_map(&mut self, map: MapSeen)
        requires { 0 < self.old.maps.spare }
        ensures maps { self.new.maps.items ≡ self.old.maps.items ++ map ∷ [] }
        ensures attempts { self.new.attempts ≡ self.old.attempts }
    {
        match &mut self.few {
            Few::More { lists } => lists.maps.push(map),
            _ => self.few = Few::Map { seen: [map] },
        }
    }

    /// Makes room for just so many attempts more. The maps and attempts stay, on `Memory` too.
    pub fn reserve(&mut self, alloc: Global, more: usize) -> Result<(), Memory>
        ensures maps { self.new.maps.items ≡ self.old.maps.items }
        ensures attempts { self.new.attempts.items ≡ self.old.attempts.items }
        ensures room { OnOk result (more ≤ self.new.attempts.spare) }
    {
        if more == 0 {
            return Ok(());
        }
        match &mut self.few {
            Few::Nothing => {
                let lists = lists_of(alloc, &[], 0, more)?;
                self.few = Few::More { lists };
            }
            Few::Map { seen } => {
                let lists = lists_of(alloc, &seen[..], 0, more)?;
                self.few = Few::More { lists };
            }
            Few::More { lists } => lists.attempts.reserve_exact(more)?,
        }
        Ok(())
    }

    /// Puts another attempt at the end, in the room that was made for it.
    pub fn push(&mut self, attempt: Attempt)
        requires { 0 < self.old.attempts.spare }
        ensures maps { self.new.maps.items ≡ self.old.maps.items }
        ensures attempts { self.new.attempts.items ≡ self.old.attempts.items ++ attempt ∷ [] }
        ensures room { self.new.attempts.spare + 1 ≡ self.old.attempts.spare }
    {
        if let Few::More { lists } = &mut self.few {
            lists.attempts.push(attempt);
        }
    }
}
