// SPDX-License-Identifier: GPL-2.0-only
//! The command that `clap` reads the words by.

ghost use Rattle.std.specs.Prelude.{◌≡◌, false, IfOk};
ghost use Rattle.clap.specs.Words.{app_of};
ghost use Rattle.clap.specs.declared.builder.Command.TheViews.{out-Command};
ghost use Rattle.shr_gen.specs.CommandLine.{gen_app, the_app};

use clap::{Arg, Command};
use std::alloc::{AllocError, Global};

// The subcommand that takes three numbers.
fn gen_command<'a>(alloc: Global) -> Result<Command<'a>, AllocError>
    ensures app { IfOk result (λ c. app_of c ≡ gen_app) }
    ensures local { IfOk result (λ c. (out-Command c).has_globals ≡ false) }
{
    let seed = Arg::new(alloc, "seed").required(true);
    let workers = Arg::new(alloc, "workers").required(true);
    let commands = Arg::new(alloc, "commands").required(true);
    Command::new(alloc, "gen")
        .arg(seed)?
        .arg(workers)?
        .arg(commands)
}

/// The program's command: three subcommands, of which one is wanted, without help and without a word
/// for the program's name.
pub fn command<'a>(alloc: Global) -> Result<Command<'a>, AllocError>
    ensures { IfOk result (λ c. app_of c ≡ the_app) }
{
    let run = Command::new(alloc, "run");
    let gen_command = gen_command(alloc)?;
    let audit = Command::new(alloc, "audit");
    Command::new(alloc, "shrinkers")
        .no_binary_name(true)
        .disable_help_flag(true)
        .disable_help_subcommand(true)
        .subcommand_required(true)
        .subcommand(run)?
        .subcommand(gen_command)?
        .subcommand(audit)
}
