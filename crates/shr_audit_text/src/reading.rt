// SPDX-License-Identifier: GPL-2.0-only
//! Reading a whole report.

ghost use Rattle.std.specs.Prelude.{◌≡◌, ◌≤◌, [], ◌∷◌, length, Some, IfOk, IfSome, IfNone};
ghost use Rattle.std.specs.List.{prefix_len};
ghost use Rattle.shr_model.specs.Pieces.{pieces, differs};
ghost use Rattle.shr_laws.specs.declared.report.Report.{Report};
ghost use Rattle.shr_audit_text.specs.Reading.{IsReportOf, IsTightReport};

use crate::draft::Draft;
use crate::finish::finish;
use crate::said::read_line;
use shr_base::memory::Memory;
use shr_laws::report::Report;
use std::alloc::Global;

// The number of bytes before the first line feed.
fn line_len(bytes: &[u8]) -> usize
    ensures front { result ≡ prefix_len (differs 10) bytes.now }
    ensures within { result ≤ length bytes.now }
{
    bytes.iter().take_while(|b| **b != b'\n').count()
}

// The first line, and what is behind its line feed. None: there is no line feed.
#[tactic(auto, using(crate::proofs::Steps::line_more, crate::proofs::Steps::line_last))]
fn first_line(bytes: &[u8]) -> Option<(&[u8], &[u8])>
    ensures some { IfSome result (λ x. pieces 10 bytes.now ≡ x.0.now ∷ pieces 10 x.1.now) }
    ensures none { IfNone result (pieces 10 bytes.now ≡ bytes.now ∷ []) }
{
    let n = line_len(bytes);
    if n < bytes.len() {
        Some((&bytes[..n], &bytes[n + 1..]))
    } else {
        None
    }
}

/// The report that these bytes say, line by line. It believes what it reads: if the bytes are the text
/// of a report it is that one, and else it may be any or none, which a caller tells by printing it
/// again. The lists of what it finds have no room to spare. Want of memory alone is an error.
pub fn read(alloc: Global, bytes: &[u8]) -> Result<Option<Report>, Memory>
    ensures found { IfOk result (λ found. (r : Report) → IsReportOf bytes.now r → found ≡ Some r) }
    ensures tight { IfOk result (λ found. IfSome found IsTightReport) }
{
    let mut draft = Draft::new(alloc);
    let mut rest = bytes;
    while let Some((line, behind)) = first_line(rest) {
        let Some(said) = read_line(alloc, draft.version, line)? else {
            return Ok(None);
        };
        draft.take(said)?;
        rest = behind;
    }
    if rest.is_empty() {
        Ok(Some(finish(alloc, draft)?))
    } else {
        Ok(None)
    }
}
