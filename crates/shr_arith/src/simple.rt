// SPDX-License-Identifier: GPL-2.0-only
//! What can be counted and scanned.

ghost use Rattle.std.specs.Prelude.{◌≡◌, ℕ, ◌+◌, ◌≤◌, IfSome, IfNone};

/// A cache whose objects can be counted and freed.
///
/// Whoever implements it says what a count means (`counts`) and what it means that n objects were
/// freed between two states (`frees`), and proves two laws of `frees`. `Loses` of specs/Losing.antt
/// is a meaning for a cache with a length, and has both laws.
///
/// Linux: `struct shrinker` with its `count_objects` and `scan_objects`, in
/// include/linux/shrinker.h.
pub trait Simple {
    // This many objects can be freed.
    ghost counts: { Self → ℕ → Type 0 };

    // This many objects were freed from the first state to the second.
    ghost frees: { Self → ℕ → Self → Type 0 };

    /// Counts the objects that can be freed. A pass that counts 0 scans nothing.
    fn count(&self) -> u32
        ensures small { result ≤ 1048576 }
        ensures counts { counts self.now result };

    /// Frees up to `asked` objects. `None` says that no progress can be made now, and ends the pass.
    fn scan(&mut self, asked: u32) -> Option<u32>
        ensures within { IfSome result (λ n. n ≤ asked) }
        ensures freed { IfSome result (λ n. frees self.old n self.new) }
        ensures stopped { IfNone result (frees self.old 0 self.new) };

    ghost frees_none: { (x : Self) → frees x 0 x };

    ghost frees_then: { (x y z : Self) (m n : ℕ) → frees x m y → frees y n z → frees x (m + n) z };
}
