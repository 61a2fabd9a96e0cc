// SPDX-License-Identifier: GPL-2.0-only
//! What a worker is given, and what it leaves.

use shr_base::log::Log;
use shr_base::replies::Answered;
use shr_base::walks::Isolation;
use shr_plain::PlainSeat;
use shr_walk::seats::Seats;

/// What a worker runs with: its number in the script, and its seats.
#[derive(Drop)]
pub struct Task<'a> {
    pub number: u16,
    pub seats: Seats<'a>,
    /// Its seat at the pools of units.
    pub plain: PlainSeat<'a>,
}

/// What a worker leaves: its seats, with what they noted, and its answers.
#[derive(Drop)]
pub struct WorkerResult<'a> {
    pub number: u16,
    pub seats: Seats<'a>,
    pub plain: PlainSeat<'a>,
    pub answers: Log<Answered>,
    pub isolations: Log<Isolation>,
    /// Each command was answered and each operation noted. It is false for want of memory alone.
    pub whole: bool,
}
