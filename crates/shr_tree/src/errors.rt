// SPDX-License-Identifier: GPL-2.0-only
//! Why a group can't be added.

ghost use Rattle.std.specs.Prelude.{◌≡◌};
ghost use Rattle.shr_tree.specs.declared.errors.TreeError.TheVariants.{Memory as WantOfMemory};

use shr_base::memory::Memory;
use std::alloc::AllocError;
use thiserror::Error;

/// Why a group can't be added, in the order of the tests.
#[derive(Clone, Copy, Debug, PartialEq, Eq, Error)]
pub enum TreeError {
    #[error("the path is not well formed")]
    BadPath,
    #[error("the parent is not there")]
    NoParent,
    #[error("the path is there already")]
    Exists,
    #[error("there are as many groups as there may be")]
    TooMany,
    #[error("there is no memory")]
    Memory,
}

impl From<Memory> for TreeError {
    ghost from_gives = { λ _ e. e ≡ WantOfMemory };

    fn from(_e: Memory) -> TreeError {
        TreeError::Memory
    }
}

impl From<AllocError> for TreeError {
    ghost from_gives = { λ _ e. e ≡ WantOfMemory };

    fn from(_e: AllocError) -> TreeError {
        TreeError::Memory
    }
}
