// SPDX-License-Identifier: GPL-2.0-only
//! The parts of bytes between single separators, one after the other.

ghost use Rattle.std.specs.Prelude.{◌≡◌, ◌≤◌, length, option_map};
ghost use Rattle.std.specs.List.{prefix_len};
ghost use Rattle.shr_model.specs.Pieces.{differs};
ghost use Rattle.shr_model.specs.PieceParts.{left, next_part};

use crate::runs::word_len;

#[inline(always)]
fn part_len(bytes: &[u8], separator: u8) -> usize
    ensures front { result ≡ prefix_len (differs separator) bytes.now }
    ensures within { result ≤ length bytes.now }
{
    if separator == b' ' {
        return word_len(bytes);
    }
    bytes.iter().take_while(|b| **b != separator).count()
}

#[tactic(auto, unfolding(shr_model::specs::PieceParts::left), using(shr_model::proofs::PiecesLaws::next_more, shr_model::proofs::PiecesLaws::next_last))]
/// The next part, and what is left behind it: nothing, where no separator ends the part.
#[inline]
pub fn next(rest: Option<&[u8]>, separator: u8) -> Option<(&[u8], Option<&[u8]>)>
    ensures { option_map (λ x. (x.0.now, left separator (option_map (λ r. r.now) x.1))) result
        ≡ next_part (left separator (option_map (λ r. r.now) rest.entry)) }
{
    let Some(bytes) = rest else {
        return None;
    };
    let n = part_len(bytes, separator);
    if n < bytes.len() {
        Some((&bytes[..n], Some(&bytes[n + 1..])))
    } else {
        Some((bytes, None))
    }
}
