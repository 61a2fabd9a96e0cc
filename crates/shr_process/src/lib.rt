// SPDX-License-Identifier: GPL-2.0-only
//! The process around `top`: its words, the standard streams, and what is shown of its forms.
#![tactic(auto)]

ghost use Rattle.std.specs.Prelude.{◌≡◌, ◌≢◌};
ghost use Rattle.std.specs.Process.{exit_status};
ghost use Rattle.std.specs.IoError.{error_kind};
ghost use Rattle.shr_process.specs.Ending.{IsStatusNumber};
ghost use Rattle.shr_tool.specs.Statuses.{status_number};

use shr_outside::outside::Gate;
use shr_outside::sinks::StdSink;
use shr_outside::sources::StdSource;
use shr_tool::afterwards::Afterwards;
use shr_tool::status::Status;
use shr_tool::top::top;
use std::io::ErrorKind;
use std::process::ExitCode;
use std::sync::Wait;
use std::thread::Threads;
use std::{env, io};

/// A gate that is always open.
#[derive(Clone, Copy)]
struct Open;

impl Gate for Open {
    fn before(&self, _worker: u16, _command: u32) {}
}

// The words after the program's name.
fn words_of(rt: &HostRuntime) -> io::Result<Vec<String>> {
    let mut words = Vec::new(rt.alloc());
    for word in env::args(rt)?.skip(1) {
        words.push(word)?;
    }
    Ok(words)
}

// Where there was no memory for the words they may be of a form; a word that can't be read is of none.
fn unread(error: &io::Error) -> Status
    ensures memory { error_kind error.now ≡ ErrorKind.OutOfMemory → result ≡ Status.Memory }
    ensures unread { error_kind error.now ≢ ErrorKind.OutOfMemory → result ≡ Status.Usage }
{
    match error.kind() {
        ErrorKind::OutOfMemory => Status::Memory,
        _ => Status::Usage,
    }
}

// What `top` answers to the process's words, over its standard streams.
fn run<R: Threads + Wait + Sync>(rt: &HostRuntime, threads: &R) -> Status {
    let words = match words_of(rt) {
        Ok(words) => words,
        Err(error) => return unread(&error),
    };
    let mut source = StdSource::new(rt.reader());
    let mut sink = StdSink::new(io::writer(rt));
    // The process ends next, and with it all memory goes back at once.
    let afterwards = Afterwards::LeaveToExit;
    top(
        threads,
        rt.alloc(),
        &words,
        &mut source,
        &mut sink,
        &Open,
        afterwards,
    )
}

// Whoever can't read standard error still has the exit status.
fn show_forms(rt: &HostRuntime) {
    let _ = eprintln!(rt;
        "usage: shrinkers run < SCRIPT > REPORT\n       shrinkers gen SEED WORKERS COMMANDS\n       shrinkers audit < SCRIPT-AND-REPORT"
    );
}

// What the process ends with where `top` ended so.
fn exit_of(status: Status) -> ExitCode
    ensures { exit_status result ≡ status_number status }
{
    ExitCode::from(status.number())
}

/// All that the process does: `top` with its words and its standard streams, and the exit status
/// that is the status' number. The threads are `main`'s to give. Where the words are of no form it
/// shows the forms on standard error. It waits as the workers do.
pub fn serve<R: Threads + Wait + Sync>(rt: &HostRuntime, threads: &R) -> ExitCode
    ensures { IsStatusNumber (exit_status result) }
{
    let status = run(rt, threads);
    if status == Status::Usage {
        show_forms(rt);
    }
    exit_of(status)
}
