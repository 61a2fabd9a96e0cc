// SPDX-License-Identifier: GPL-2.0-only
//! The program.
#![tactic(auto)]

use shr_process::serve;
use std::process::ExitCode;

fn main(rt: HostRuntime) -> ExitCode {
    serve(&rt, &rt)
}
