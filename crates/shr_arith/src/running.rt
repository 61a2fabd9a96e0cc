// SPDX-License-Identifier: GPL-2.0-only
//! The arithmetic, held against the passes of a running kernel.

use crate::formulas::{next_ask, next_deferred, plan};
use crate::plans::Plan;
use crate::recorded::{PASSES_0, PASSES_1, PASSES_2};
use std::process::Abort;
use std::test::Fail;

// The next number of a line.
fn number<R: Abort>(rt: &R, words: &mut std::str::SplitWhitespace<'_>) -> u64 {
    let word = words.next().unwrap_or("");
    let number = word.parse::<u64>();
    assert!(rt; number.is_ok(), "{word} is no number");
    number.unwrap_or(0)
}

// The next number of a line, which is below 2^32.
fn small<R: Abort>(rt: &R, words: &mut std::str::SplitWhitespace<'_>) -> u32 {
    let number = number(rt, words);
    assert!(rt; number <= u32::MAX as u64);
    number as u32
}

// Plans a pass again, and asks until as many objects were scanned as the kernel scanned. Its
// callback may have stopped it there.
fn agrees<R: Abort>(rt: &R, line: &str) {
    let mut words = line.split_whitespace();
    let freeable = small(rt, &mut words);
    let nr = number(rt, &mut words);
    let priority = small(rt, &mut words);
    let seeks = small(rt, &mut words);
    let batch = small(rt, &mut words);
    assert!(rt; priority <= 12 && batch <= 20_000);
    let plan = plan(freeable, nr, priority as u8, seeks, batch);
    assert_eq!(rt; plan.delta, number(rt, &mut words), "delta of {line}");
    assert_eq!(rt; plan.total, number(rt, &mut words), "total of {line}");
    let scanned = number(rt, &mut words);
    asks(rt, &plan, freeable, scanned);
    let next = next_deferred(nr, plan.delta, scanned, freeable);
    assert_eq!(rt; next, number(rt, &mut words), "deferred of {line}");
}

// A pass asks for a batch at a time, or for the rest, until it has scanned these.
fn asks<R: Abort>(rt: &R, plan: &Plan, freeable: u32, scanned: u64) {
    let batch = plan.batch as u64;
    assert!(rt; batch > 0);
    for turn in 0..scanned.div_ceil(batch) {
        let left = plan.total.saturating_sub(turn.saturating_mul(batch));
        let ask = next_ask(plan, left, freeable).map(|ask| ask as u64);
        assert_eq!(rt; ask, Some(left.min(batch)));
    }
    assert!(rt; scanned == plan.total || scanned % batch == 0);
}

#[test]
fn passes_of_a_running_kernel_0(rt: HostRuntime) -> Result<(), Fail> {
    for line in PASSES_0.split('\n') {
        agrees(&rt, line);
    }
    Ok(())
}

#[test]
fn passes_of_a_running_kernel_1(rt: HostRuntime) -> Result<(), Fail> {
    for line in PASSES_1.split('\n') {
        agrees(&rt, line);
    }
    Ok(())
}

#[test]
fn passes_of_a_running_kernel_2(rt: HostRuntime) -> Result<(), Fail> {
    for line in PASSES_2.split('\n') {
        agrees(&rt, line);
    }
    Ok(())
}
