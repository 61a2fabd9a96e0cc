// SPDX-License-Identifier: GPL-2.0-only
//! Paths that were declared, each with its number.

ghost use Rattle.std.specs.Prelude.{◌≡◌, ◌<◌, ◌++◌, ◌∷◌, [], None, OnOk, OnErr, IfSome, length, true};
ghost use Rattle.shr_words.specs.Classes.{place_of};
ghost use Rattle.shr_model.specs.Paths.{is_path};

use crate::names::Names;
use shr_base::memory::Memory;
use std::alloc::Global;
use std::marker::Model;

/// At most 256 paths of the input, in the order of their declarations, which contracts see as their
/// list. A word that is found among them needs no look at its parts.
#[derive(Drop)]
pub struct Paths<'a> {
    paths: Names<'a>,
}

impl<'a> Model for Paths<'a> {
    ghost use Rattle.std.specs.Prelude.{List, ℕ, ◌≡◌, true};
    ghost use Rattle.std.specs.List.{list_all};
    ghost use Rattle.shr_model.specs.Paths.{is_path};

    ghost Value = { List (List ℕ) };

    ghost view = { λ p. p.paths };

    ghost invariant = { λ p. list_all is_path p.paths ≡ true };
}

impl<'a> Paths<'a> {
    /// No path yet.
    pub fn new(alloc: Global) -> Paths<'a>
        ensures { result ≡ [] }
    {
        Paths {
            paths: Names::new(alloc),
        }
    }

    /// The number of a path; a word that has one is a path.
    #[inline(always)]
    pub fn place(&self, word: &[u8]) -> Option<u16>
        ensures place { result ≡ place_of word.now self.now }
        ensures within { IfSome result (λ i. i < 256) }
        ensures path { IfSome result (λ _. is_path word.now ≡ true) }
    {
        self.paths.place(word)
    }

    /// How many paths were declared.
    pub fn len(&self) -> usize
        ensures { result ≡ length self.now }
    {
        self.paths.len()
    }

    /// Declares a path that isn't there.
    #[tactic(auto, using(crate::proofs::PathLaws::one_path_more))]
    pub fn declare(&mut self, path: &'a [u8]) -> Result<(), Memory>
        requires path { is_path path.now ≡ true }
        requires absent { place_of path.now self.old ≡ None }
        requires few { length self.old < 256 }
        ensures added { OnOk result (self.new ≡ self.old ++ path.now ∷ []) }
        ensures kept { OnErr result (self.new ≡ self.old) }
    {
        self.paths.declare(path)
    }
}
