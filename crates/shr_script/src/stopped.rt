// SPDX-License-Identifier: GPL-2.0-only
//! Why a line could not be read.

ghost use Rattle.std.specs.Prelude.{◌≡◌};
ghost use Rattle.shr_script.specs.declared.stopped.Stopped.TheVariants.{Bad, Memory as WantOfMemory};

use shr_base::memory::Memory;
use shr_base::scripts::Code;

/// Why reading stopped at a line: the line is bad by this code, or there was no memory.
#[derive(Clone, Copy)]
pub enum Stopped {
    Bad(Code),
    Memory,
}

impl From<Code> for Stopped {
    ghost from_gives = { λ code e. e ≡ Bad code };

    fn from(code: Code) -> Stopped {
        Stopped::Bad(code)
    }
}

impl From<Memory> for Stopped {
    ghost from_gives = { λ _ e. e ≡ WantOfMemory };

    fn from(_e: Memory) -> Stopped {
        Stopped::Memory
    }
}
