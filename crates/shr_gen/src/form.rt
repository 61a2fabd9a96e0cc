// SPDX-License-Identifier: GPL-2.0-only
//! The forms of the command line.

ghost use Rattle.std.specs.Prelude.{◌≡◌, ◌↔◌, ℕ, List, ◌∷◌, [], Some, codes, map, string_bytes, IsTrue};
ghost use Rattle.std.specs.List.{list_any};
ghost use Rattle.clap.specs.Words.{Row, first_of, found_of, rows_of, subcommand_rows_of};
ghost use Rattle.shr_gen.specs.Generated.{MayBeGenerated};
ghost use Rattle.shr_gen.specs.CommandLine.{has_hyphen};
ghost use Rattle.shr_gen.specs.Forms.{Spells, ReadsAs};
ghost use Rattle.shr_gen.specs.declared.form.Form.TheVariants.{Run, Audit};

use crate::command_line::command;
use clap::ArgMatches;
use clap::error::ErrorKind;
use itoa::Buffer;
use std::alloc::Global;

/// What the words ask for.
#[derive(Clone, Copy, Debug, PartialEq, Eq)]
pub enum Form {
    /// To run the script that is read.
    Run,
    /// To run the script that these numbers make.
    Gen {
        seed: u64,
        workers: u16,
        commands: u32,
    },
    /// To judge the report that is read behind its script.
    Audit,
}

// The number that a word spells, without a sign and without a zero before it.
fn number_in(word: &str) -> Option<u64>
    ensures { Spells word.now result }
{
    let Ok(number) = word.parse::<u64>() else {
        return None;
    };
    let mut buffer = Buffer::new();
    if buffer.format(number) == word {
        Some(number)
    } else {
        None
    }
}

// Whether a script may be made of so many workers with so many commands each.
fn may_be_made(workers: u64, commands: u64) -> bool
    ensures { IsTrue result ↔ MayBeGenerated workers commands }
{
    if workers < 1 || workers > 63 || commands < 1 || commands > 20_000 {
        return false;
    }
    workers * commands <= 20_000
}

// `gen` with three more words.
fn gen_form(seed: &str, workers: &str, commands: &str) -> Option<Form>
    ensures { ReadsAs (codes "gen" ∷ seed.now ∷ workers.now ∷ commands.now ∷ []) result }
{
    let seed = number_in(seed)?;
    let workers = number_in(workers)?;
    let commands = number_in(commands)?;
    if !may_be_made(workers, commands) {
        return None;
    }
    Some(Form::Gen {
        seed,
        workers: workers as u16,
        commands: commands as u32,
    })
}

// What the words after `gen` ask for.
fn generated_form(given: &ArgMatches<'_>) -> Option<Form>
    ensures { (a b c : List ℕ) → first_of (codes "seed") (rows_of (found_of given.now)) ≡ Some a
        → first_of (codes "workers") (rows_of (found_of given.now)) ≡ Some b
        → first_of (codes "commands") (rows_of (found_of given.now)) ≡ Some c
        → ReadsAs (codes "gen" ∷ a ∷ b ∷ c ∷ []) result }
{
    let seed = given.get_str("seed")?;
    let workers = given.get_str("workers")?;
    let commands = given.get_str("commands")?;
    gen_form(seed, workers, commands)
}

// What the words that were split ask for.
fn form_in(matches: &ArgMatches<'_>) -> Option<Form>
    ensures run { (rows : List Row) → subcommand_rows_of matches.now ≡ Some (codes "run", rows)
        → result ≡ Some Run }
    ensures generated { (rows : List Row) (a b c : List ℕ)
        → subcommand_rows_of matches.now ≡ Some (codes "gen", rows)
        → first_of (codes "seed") rows ≡ Some a → first_of (codes "workers") rows ≡ Some b
        → first_of (codes "commands") rows ≡ Some c
        → ReadsAs (codes "gen" ∷ a ∷ b ∷ c ∷ []) result }
    ensures audit { (rows : List Row) → subcommand_rows_of matches.now ≡ Some (codes "audit", rows)
        → result ≡ Some Audit }
{
    match matches.subcommand() {
        Some((name, given)) => {
            if name == "run" {
                Some(Form::Run)
            } else if name == "audit" {
                Some(Form::Audit)
            } else {
                generated_form(given)
            }
        }
        None => None,
    }
}

fn has_hyphen(word: &str) -> bool
    ensures { result ≡ has_hyphen word.now }
{
    match word.as_bytes() {
        [first, ..] => *first == b'-',
        [] => false,
    }
}

// Whether a word begins with a hyphen.
fn have_hyphen(words: &[String]) -> bool
    ensures { result ≡ list_any (λ word. has_hyphen (string_bytes word)) words.now }
{
    words.iter().any(|word| has_hyphen(word.as_str()))
}

// The form that one word alone is of.
fn single_form(word: &str) -> Option<Form>
    ensures { ReadsAs (word.now ∷ []) result }
{
    if word == "run" {
        return Some(Form::Run);
    }
    if word == "audit" {
        return Some(Form::Audit);
    }
    None
}

// The form that the words are of, word by word.
fn plain_form(words: &[String]) -> Option<Form>
    ensures { ReadsAs (map string_bytes words.now) result }
{
    match words {
        [word] => single_form(word.as_str()),
        [word, seed, workers, commands] if word.as_str() == "gen" => {
            gen_form(seed.as_str(), workers.as_str(), commands.as_str())
        }
        _ => None,
    }
}

/// The form that the words after the program's name are of, if they are of one. Words of which one
/// begins with a hyphen are of none.
///
/// `clap` splits the words. Where it has no memory for that, they are read word by word.
pub fn form_of(alloc: Global, words: &[String]) -> Option<Form>
    ensures { ReadsAs (map string_bytes words.now) result }
{
    if have_hyphen(words) {
        return None;
    }
    let Ok(command) = command(alloc) else {
        return plain_form(words);
    };
    match command.try_get_matches_from(words) {
        Ok(matches) => form_in(&matches),
        Err(error) => match error.kind() {
            ErrorKind::OutOfMemory => plain_form(words),
            _ => None,
        },
    }
}
