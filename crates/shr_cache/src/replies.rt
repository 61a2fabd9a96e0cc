// SPDX-License-Identifier: GPL-2.0-only
//! What a command answers that holds no cache.

ghost use Rattle.std.specs.Prelude.{◌≡◌};

use shr_base::replies::{Answered, Reply};

/// The answer to a command that holds no cache.
pub fn unfound(reply: Reply) -> Answered
    ensures { result ≡ record { reply = reply; found = None } }
{
    Answered { reply, found: None }
}
