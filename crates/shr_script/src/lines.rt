// SPDX-License-Identifier: GPL-2.0-only
//! The lines of a script's bytes, one after the other.

ghost use Rattle.std.specs.Prelude.{◌≡◌, ◌≤◌, length, option_map};
ghost use Rattle.std.specs.List.{prefix_len};
ghost use Rattle.shr_model.specs.Pieces.{differs};
ghost use Rattle.shr_model.specs.PieceParts.{left, next_part};

use memchr::memchr;

// How many bytes stand before the first line feed, or before the end where there is none.
#[tactic(auto, using(crate::proofs::LineFeeds::none_is, crate::proofs::LineFeeds::some_is))]
fn line_len(bytes: &[u8]) -> usize
    ensures front { result ≡ prefix_len (differs 10) bytes.now }
    ensures within { result ≤ length bytes.now }
{
    match memchr(b'\n', bytes) {
        Some(n) => n,
        None => bytes.len(),
    }
}

/// The next line, and what is left behind it: nothing, where no line feed ends the line.
#[tactic(auto, unfolding(shr_model::specs::PieceParts::left), using(shr_model::proofs::PiecesLaws::next_more, shr_model::proofs::PiecesLaws::next_last))]
pub fn next_line(rest: Option<&[u8]>) -> Option<(&[u8], Option<&[u8]>)>
    ensures { option_map (λ x. (x.0.now, left 10 (option_map (λ r. r.now) x.1))) result
        ≡ next_part (left 10 (option_map (λ r. r.now) rest.entry)) }
{
    let Some(bytes) = rest else {
        return None;
    };
    let n = line_len(bytes);
    if n < bytes.len() {
        Some((&bytes[..n], Some(&bytes[n + 1..])))
    } else {
        Some((bytes, None))
    }
}
