// SPDX-License-Identifier: GPL-2.0-only
//! The text of a refusal.

ghost use Rattle.std.specs.Prelude.{◌≡◌, IfOk};
ghost use Rattle.shr_tool.specs.Top.{code_name, refusal};

use itoa::Buffer;
use shr_base::memory::Memory;
use shr_base::scripts::Code;
use std::alloc::Global;

fn name_of(code: Code) -> &'static [u8]
    ensures { result.now ≡ code_name code }
{
    match code {
        Code::BadHeader => b"BadHeader",
        Code::UnknownWord => b"UnknownWord",
        Code::BadNumber => b"BadNumber",
        Code::BadText => b"BadText",
        Code::BadPath => b"BadPath",
        Code::NoParent => b"NoParent",
        Code::Exists => b"Exists",
        Code::UnknownGroup => b"UnknownGroup",
        Code::UnknownCache => b"UnknownCache",
        Code::NoWorker => b"NoWorker",
        Code::TooMany => b"TooMany",
        Code::Missing => b"Missing",
        Code::Trailing => b"Trailing",
        Code::NoEnd => b"NoEnd",
    }
}

/// The line that says at which line of a script it is refused, and why.
pub fn refusal(alloc: Global, line: u32, code: Code) -> Result<Vec<u8>, Memory>
    ensures { IfOk result (λ text. text.items ≡ refusal line code) }
{
    let mut buffer = Buffer::new();
    let mut text = Vec::from_slice(alloc, b"refused ")?;
    text.extend_from_slice(buffer.format(line).as_bytes())?;
    text.extend_from_slice(b" ")?;
    text.extend_from_slice(name_of(code))?;
    text.extend_from_slice(b"\n")?;
    Ok(text)
}
