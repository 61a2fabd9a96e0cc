// SPDX-License-Identifier: GPL-2.0-only
//! Passes by the formulas alone: the worked ones, and the last values.

use shr_arith::formulas::{next_ask, next_deferred, plan};
use std::process::Abort;
use std::test::Fail;

// A plan's count, deferred, priority, seeks and batch.
type Given = (u32, u64, u8, u32, u32);

// A plan by what it is given, its delta, total and batch, and its first ask.
type Row = (Given, (u64, u64, u32), Option<u32>);

const ROWS: [Row; 12] = [
    ((1000, 0, 0, 2, 0), (2000, 2000, 128), Some(128)),
    ((100, 0, 0, 2, 0), (200, 200, 128), Some(128)),
    ((60, 0, 0, 2, 0), (120, 120, 128), Some(120)),
    ((1000, 0, 12, 2, 0), (0, 0, 128), None),
    ((1000, 5000, 2, 2, 0), (500, 1750, 128), Some(128)),
    ((9, 0, 0, 0, 0), (4, 4, 128), None),
    ((2, 0, 1, 2, 0), (2, 2, 128), Some(2)),
    // A batch of its own, below the count and above it.
    ((1000, 0, 0, 2, 32), (2000, 2000, 32), Some(32)),
    ((1000, 0, 0, 2, 20_000), (2000, 2000, 20_000), Some(2000)),
    // An object that is costly to make again.
    ((1000, 0, 0, 1000, 0), (4, 4, 128), None),
    // The last values: the sum is over whole numbers.
    ((1000, u64::MAX, 0, 2, 0), (2000, 2000, 128), Some(128)),
    (
        (u32::MAX, u64::MAX, 12, 0, 0),
        (2_147_483_647, 8_589_934_590, 128),
        Some(128),
    ),
];

// Plans as a row gives it, and sees that the row tells of the plan.
fn plans<R: Abort>(rt: &R, row: Row) {
    let ((freeable, nr, priority, seeks, batch), planned, first) = row;
    assert!(rt; priority <= 12 && batch <= 20_000);
    let plan = plan(freeable, nr, priority, seeks, batch);
    assert_eq!(rt; (plan.delta, plan.total, plan.batch), planned);
    assert_eq!(rt; next_ask(&plan, plan.total, freeable), first);
}

#[test]
fn plans_of_the_table(rt: HostRuntime) -> Result<(), Fail> {
    for row in ROWS {
        plans(&rt, row);
    }
    Ok(())
}

#[test]
fn a_last_ask_may_be_less_than_a_batch(rt: HostRuntime) -> Result<(), Fail> {
    let plan = plan(60, 0, 0, 2, 0);
    assert_eq!(rt; next_ask(&plan, 60, 60), Some(60));
    assert_eq!(rt; next_ask(&plan, 59, 60), None);
    Ok(())
}

#[test]
fn what_is_deferred_again(rt: HostRuntime) -> Result<(), Fail> {
    assert_eq!(rt; next_deferred(0, 2000, 1920, 1000), 80);
    assert_eq!(rt; next_deferred(5000, 500, 1664, 1000), 2000);
    assert_eq!(rt; next_deferred(2000, 2000, 1920, 1000), 2000);
    assert_eq!(rt; next_deferred(0, 4, 128, 9), 0);
    assert_eq!(rt; next_deferred(u64::MAX, 2000, 0, 1000), 2000);
    assert_eq!(rt; next_deferred(u64::MAX, 0, u64::MAX, u32::MAX), 0);
    Ok(())
}
