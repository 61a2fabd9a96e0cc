// SPDX-License-Identifier: GPL-2.0-only
//! The paths of groups, each with its number.

ghost use Rattle.std.specs.Prelude.{◌≡◌, ◌<◌, ◌++◌, ◌∷◌, [], None, OnOk, OnErr, IfSome, length};
ghost use Rattle.shr_words.specs.Classes.{place_of};

use indexmap::IndexSet;
use shr_base::memory::Memory;
use std::alloc::Global;
use std::marker::Model;

/// Paths in the order of their declarations, which contracts see as their list.
#[derive(Drop)]
pub struct PathNames {
    words: IndexSet<Vec<u8>>,
}

impl Model for PathNames {
    ghost use Rattle.std.specs.Prelude.{List, ℕ, map};

    ghost Value = { List (List ℕ) };

    ghost view = { λ n. map (λ w. w.items) n.words.keys };
}

impl PathNames {
    /// No path yet.
    pub fn new(alloc: Global) -> PathNames
        ensures { result ≡ [] }
    {
        PathNames {
            words: IndexSet::new(alloc),
        }
    }

    /// The number of a path, by one look-up.
    pub fn place(&self, path: &[u8]) -> Option<usize>
        ensures place { result ≡ place_of path.now self.now }
        ensures within { IfSome result (λ i. i < length self.now) }
    {
        self.words.get_index_of(path)
    }

    /// How many paths were declared.
    pub fn len(&self) -> usize
        ensures { result ≡ length self.now }
    {
        self.words.len()
    }

    /// Declares a path that isn't there. Without memory the paths stay as they are.
    pub fn declare(&mut self, alloc: Global, path: &[u8]) -> Result<(), Memory>
        requires { place_of path.now self.old ≡ None }
        ensures declared { OnOk result (self.new ≡ self.old ++ path.now ∷ []) }
        ensures kept { OnErr result (self.new ≡ self.old) }
    {
        self.words.insert(Vec::from_slice(alloc, path)?)?;
        Ok(())
    }
}
