// SPDX-License-Identifier: GPL-2.0-only
//! Reading a script.

ghost use Rattle.std.specs.Prelude.{◌≡◌, ◌<◌, ◌^◌, ℕ, length, option_map, IfOk, IfErr};
ghost use Rattle.shr_base.specs.declared.scripts.Code.{Code};
ghost use Rattle.shr_script.specs.declared.read.ReadError.TheVariants.{Memory as WantOfMemory};
ghost use Rattle.shr_model.specs.PieceParts.{left};
ghost use Rattle.shr_script.specs.Content.{Content, content_of, lines_of};
ghost use Rattle.shr_script.specs.Spelling.{IsSpelling};
ghost use Rattle.shr_script.specs.Faults.{IsFault, is_last};
ghost use Rattle.shr_script.specs.Read.{error_at, Runs, run_of, ReadsScript, IsCause, TellsFault};

use crate::draft::Draft;
use crate::line::part;
use crate::lines::next_line;
use crate::said::{Said, nothing};
use crate::stopped::Stopped;
use shr_base::log::Log;
use shr_base::memory::Memory;
use shr_base::scripts::{Code, Script};
use std::alloc::Global;
use thiserror::Error;

/// Why a script could not be read.
#[derive(Clone, Copy, Debug, PartialEq, Eq, Error)]
pub enum ReadError {
    /// The first bad line, counted from 1, and what is wrong with it.
    #[error("line {line} is bad")]
    Fault { line: u32, code: Code },
    #[error("there is no memory")]
    Memory,
}

impl From<Memory> for ReadError {
    ghost from_gives = { λ _ e. e ≡ WantOfMemory };

    fn from(_e: Memory) -> ReadError {
        ReadError::Memory
    }
}

// Whether no line feed ended the part before.
#[tactic(auto, unfolding(shr_model::specs::PieceParts::left, shr_model::specs::Pieces::pieces))]
fn is_last(behind: Option<&[u8]>) -> bool
    ensures { result ≡ is_last (left 10 (option_map (λ r. r.now) behind.entry)) }
{
    behind.is_none()
}

fn error_at(line: u32, stopped: Stopped) -> ReadError
    ensures { result ≡ error_at line stopped }
{
    match stopped {
        Stopped::Bad(code) => ReadError::Fault { line, code },
        Stopped::Memory => ReadError::Memory,
    }
}

// How many commands the bytes may have, by the length of a usual line. No script has more than
// 20,000.
fn likely_commands(bytes: &[u8]) -> usize {
    (bytes.len() / 32).min(20_000)
}

fn run<'a>(alloc: Global, bytes: &'a [u8]) -> Result<(Said<'a>, Draft), ReadError>
    ensures { Runs result (run_of bytes.now) }
{
    let mut said = nothing(alloc)?;
    let mut draft = Draft {
        groups: Log::new(alloc),
        caches: Log::new(alloc),
        pools: Log::new(alloc),
        complete: Log::new(alloc),
        commands: Vec::new(alloc),
        sweep: None,
        likely: likely_commands(bytes),
    };
    let mut number = 1;
    let mut rest = Some(bytes);
    'lines: while let Some((line, behind)) = next_line(rest) {
        match part(alloc, &mut said, &mut draft, line, is_last(behind)) {
            Ok(complete) => {
                if complete {
                    return Ok((said, draft));
                }
            }
            Err(stopped) => return Err(error_at(number, stopped)),
        }
        number += 1;
        rest = behind;
    }
    Err(ReadError::Fault {
        line: number,
        code: Code::NoEnd,
    })
}

/// The script that the bytes spell, or the first bad line and what is wrong with it.
///
/// Only want of memory is answered otherwise. The bytes are gone over once, and names are looked up
/// by their hash.
pub fn read_script(alloc: Global, bytes: &[u8]) -> Result<Script, ReadError>
    // What is read is spelled so.
    ensures found { IfOk result (λ s. IsSpelling bytes.now (content_of s)) }
    // What is spelled so is read, unless memory runs out.
    ensures only { (t : Content) → IsSpelling bytes.now t → ReadsScript result t }
    // A fault is that of the first bad line.
    ensures fault { IfErr result (λ e. IsCause e bytes.now) }
    // And each such fault is returned, unless memory runs out.
    ensures told { (line : ℕ) (code : Code) → IsFault bytes.now line code
        → TellsFault result (line, code) }
    // The limits leave room for few lines.
    ensures short { IfOk result (λ s. length (lines_of (content_of s)) < 2 ^ 32) }
{
    match run(alloc, bytes) {
        Ok((said, draft)) => {
            let Draft {
                groups,
                caches,
                pools,
                complete,
                commands: _,
                sweep,
                likely: _,
            } = draft;
            Ok(Script {
                version: said.version,
                nodes: said.nodes,
                ids: said.ids,
                groups,
                caches,
                pools,
                workers: complete,
                sweep,
            })
        }
        Err(e) => Err(e),
    }
}
