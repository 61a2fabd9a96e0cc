// SPDX-License-Identifier: GPL-2.0-only
//! The numbers that a generated script is made of.

ghost use Rattle.std.specs.Prelude.{◌≡◌};
ghost use Rattle.shr_gen.specs.Generated.{next_draw, chosen_by};

/// The multiplier of Knuth's MMIX generator (The Art of Computer Programming, volume 2).
pub const MULTIPLIER: u64 = 6_364_136_223_846_793_005;

/// The increment of the same generator.
pub const INCREMENT: u64 = 1_442_695_040_888_963_407;

/// A number that is drawn again before each command.
#[derive(Clone, Copy, Debug, PartialEq, Eq)]
pub struct Draws {
    pub state: u64,
}

impl Draws {
    /// Draws the next number, of which the upper 31 bits choose a command.
    pub fn next(&mut self) -> u64
        ensures drawn { self.new.state ≡ next_draw self.old.state }
        ensures chosen { result ≡ chosen_by self.new.state }
    {
        self.state = self.state.wrapping_mul(MULTIPLIER).wrapping_add(INCREMENT);
        self.state >> 33
    }
}
