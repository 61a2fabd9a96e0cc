// SPDX-License-Identifier: GPL-2.0-only
//! The outside: a source of bytes, a sink of bytes, and a gate before each command.

ghost use Rattle.std.specs.Prelude.{◌<◌, ℕ, List, length, Option};
ghost use Rattle.shr_outside.specs.Outside.{TakesBytes, GivesBytes};

/// What a source answers.
#[derive(Clone, Copy, Debug, PartialEq, Eq)]
pub enum Took {
    /// This many bytes stand in the front of the buffer, from 1 to its length.
    Got { n: usize },
    /// No byte is left.
    End,
    /// The source failed: its count of faults rose, or stands at 2^64 - 1.
    Failed,
}

/// What a sink answers.
#[derive(Clone, Copy, Debug, PartialEq, Eq)]
pub enum Gave {
    /// This many bytes of the piece were taken, from 1 to its length if the piece isn't empty.
    Gave { n: usize },
    /// The sink failed: its count of faults rose, or stands at 2^64 - 1.
    Failed,
}

/// A source of bytes.
pub trait Source {
    /// The bytes that are left, if it tells them.
    ghost left: { Self → Option (List ℕ) };

    /// How often it has given bytes, up to 2^64 - 1.
    ghost turns: { Self → ℕ };

    /// How often it has failed. It never falls.
    ghost faults: { Self → ℕ };

    /// The next bytes, in the front of the buffer.
    fn take(&mut self, into: &mut [u8]) -> Took
        requires { 0 < length into.old }
        ensures { TakesBytes (left self.old) (left self.new) (turns self.old) (turns self.new)
            (faults self.old) (faults self.new) into.new result };
}

/// A sink of bytes.
pub trait Sink {
    /// The bytes written, if it tells them.
    ghost written: { Self → Option (List ℕ) };

    /// How often it has failed. It never falls.
    ghost faults: { Self → ℕ };

    /// Takes bytes from the front of the piece.
    fn give(&mut self, piece: &[u8]) -> Gave
        ensures { GivesBytes (written self.old) (written self.new) (faults self.old) (faults self.new)
            piece.now result };
}

/// What is called before each command of each worker, with the numbers of both. In a script with a
/// sweep each helper calls it too, before its first job, with the number of its worker's commands
/// as the command; a helper without memory for its answer takes no job and doesn't call it. The
/// program's does nothing; a test's may look at the other workers.
pub trait Gate {
    fn before(&self, worker: u16, command: u32);
}
