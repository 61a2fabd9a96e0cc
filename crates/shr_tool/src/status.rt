// SPDX-License-Identifier: GPL-2.0-only
//! How a call of the whole program ends.

ghost use Rattle.std.specs.Prelude.{◌≡◌};
ghost use Rattle.shr_tool.specs.Statuses.{status_number};

/// How a call of `top` ended. The number beside each is the program's exit status.
#[derive(Clone, Copy, Debug, PartialEq, Eq)]
pub enum Status {
    /// 0: the job was done and all of its text was written.
    Done,
    /// 2: the words are none of the forms; nothing was read or written.
    Usage,
    /// 3: the source failed; nothing was written.
    ReadFault,
    /// 4: the sink failed; what was written is a prefix of the text.
    WriteFault,
    /// 5: the script is refused, and the text that says where and why was written; with `audit` also where
    /// there is no such report, and the text says so.
    Refused,
    /// 6: there was no memory; nothing was written.
    Memory,
    /// 7: the input is longer than 4,194,304 bytes, with `audit` than 67,108,864; nothing was written.
    TooLong,
    /// 8: a law doesn't hold of the script and the report, and the text that names the first was written.
    Unlawful,
}

impl Status {
    /// The number that the program ends with. 1 is left to the shell and the kit.
    pub fn number(self) -> u8
        ensures { result ≡ status_number self }
    {
        match self {
            Status::Done => 0,
            Status::Usage => 2,
            Status::ReadFault => 3,
            Status::WriteFault => 4,
            Status::Refused => 5,
            Status::Memory => 6,
            Status::TooLong => 7,
            Status::Unlawful => 8,
        }
    }
}
