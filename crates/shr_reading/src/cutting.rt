// SPDX-License-Identifier: GPL-2.0-only
//! Where a script's bytes may be cut: in front of a line that begins a worker.

ghost use Rattle.std.specs.Prelude.{◌≡◌, ◌≤◌, ◌++◌, length, IfSome};

use memchr::memmem;

/// The bytes cut in front of the first line behind this place that begins a worker, or `None` where
/// there is no such line.
pub(crate) fn cut(bytes: &[u8], from: usize) -> Option<(&[u8], &[u8])>
    requires { from ≤ length bytes.now }
    ensures { IfSome result (λ p. bytes.now ≡ p.0.now ++ p.1.now) }
{
    let (_, behind) = bytes.split_at(from);
    let feed = memmem::find(behind, b"\nworker\n")?;
    bytes.split_at_checked(from + feed + 1)
}
