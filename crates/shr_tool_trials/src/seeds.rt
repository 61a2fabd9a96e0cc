// SPDX-License-Identifier: GPL-2.0-only
//! Scripts of known seeds, against numbers that another program made.

use shr_base::places::Target;
use shr_base::scripts::{Act, Command, Script};
use shr_gen::generating::generate;
use std::test::Fail;

// A command: its word, its group or 0, its node or 0, its declaration or priority or 0, and its key.
type Row = (&'static str, u16, u8, u8, &'static [u8]);

// Whether the command is that of the row. No one of a generated script is nofs.
fn is_row(command: &Command, row: &Row) -> bool {
    let (word, groups, nodes, number, name) = *row;
    let target = Target {
        group: groups,
        node: nodes,
        decl: number,
    };
    match command {
        Command::Put { at, key, value } => {
            word == "put"
                && *at == target
                && key.bytes() == name
                && value.bytes().starts_with(b"v")
                && value.bytes().get(1..) == name.get(1..)
        }
        Command::On {
            at,
            key,
            act: Act::Get,
        } => word == "get" && *at == target && key.bytes() == name,
        Command::Shrink {
            group,
            node,
            priority,
            nofs,
        } => (word, groups, nodes, number) == ("shrink", *group, *node, *priority) && !*nofs,
        Command::Balance {
            node,
            priority,
            nofs,
        } => (word, groups, nodes, number) == ("balance", 0, *node, *priority) && !*nofs,
        Command::Offline { group } => (word, groups) == ("offline", *group),
        _ => false,
    }
}

const FIRST: [Row; 16] = [
    ("put", 1, 0, 1, b"k0"),
    ("put", 1, 1, 2, b"k1"),
    ("put", 1, 1, 1, b"k2"),
    ("put", 1, 1, 2, b"k3"),
    ("put", 1, 1, 0, b"k4"),
    ("get", 1, 1, 2, b"k4"),
    ("shrink", 1, 0, 4, b""),
    ("balance", 0, 0, 7, b""),
    ("put", 1, 1, 0, b"k8"),
    ("put", 1, 0, 2, b"k9"),
    ("put", 1, 1, 0, b"k10"),
    ("put", 1, 1, 1, b"k11"),
    ("put", 1, 0, 1, b"k12"),
    ("get", 1, 0, 1, b"k12"),
    ("shrink", 1, 1, 8, b""),
    ("balance", 0, 0, 1, b""),
];

const SECOND: [Row; 16] = [
    ("put", 2, 1, 1, b"k0"),
    ("put", 2, 1, 1, b"k1"),
    ("put", 2, 0, 0, b"k2"),
    ("put", 2, 1, 2, b"k3"),
    ("put", 2, 0, 2, b"k4"),
    ("get", 2, 1, 0, b"k4"),
    ("shrink", 2, 0, 11, b""),
    ("balance", 0, 0, 2, b""),
    ("put", 2, 1, 2, b"k8"),
    ("put", 2, 0, 0, b"k9"),
    ("put", 2, 0, 1, b"k10"),
    ("put", 2, 1, 2, b"k11"),
    ("put", 2, 1, 1, b"k12"),
    ("get", 2, 0, 2, b"k12"),
    ("shrink", 2, 0, 3, b""),
    ("offline", 2, 0, 0, b""),
];

// Whether the commands of a worker are those of the rows.
fn are_rows(script: &Script, worker: usize, rows: &[Row]) -> bool {
    let Some(worker) = script.workers.get(worker) else {
        return false;
    };
    worker.commands.len() == rows.len()
        && worker
            .commands
            .as_slice()
            .iter()
            .zip(rows)
            .all(|(command, row)| is_row(command, row))
}

// The sizes of a script, and how many groups and caches it has.
fn counts(script: &Script) -> (u8, u16, usize, usize) {
    let (groups, caches) = (script.groups.len(), script.caches.len());
    (script.nodes, script.ids, groups, caches)
}

// Whether the last group and the last cache of a script have these names.
fn are_last(script: &Script, group: &[u8], cache: &[u8]) -> bool {
    let groups = script.groups.as_slice().last();
    let caches = script.caches.as_slice().last();
    groups.is_some_and(|it| it.path.bytes() == group)
        && caches.is_some_and(|it| it.name.bytes() == cache)
}

// Whether a script is that of seed 7 with two workers of 16 commands.
fn is_of_seven(script: &Script) -> bool {
    counts(script) == (2, 4, 2, 3)
        && are_last(script, b"/g1", b"c2")
        && are_rows(script, 0, &FIRST)
        && are_rows(script, 1, &SECOND)
}

#[test]
fn the_script_of_a_seed_is_that_of_its_table(rt: HostRuntime) -> Result<(), Fail> {
    let script = generate(rt.alloc(), 7, 2, 16)?;
    let is_made = is_of_seven(&script);
    assert!(rt; is_made);
    Ok(())
}

#[test]
fn the_last_seed_wraps(rt: HostRuntime) -> Result<(), Fail> {
    let script = generate(rt.alloc(), 18446744073709551615, 1, 1)?;
    let is_made = are_rows(&script, 0, &[("put", 1, 0, 2, b"k0")]);
    assert!(rt; is_made);
    Ok(())
}
