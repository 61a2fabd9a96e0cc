// SPDX-License-Identifier: GPL-2.0-only
//! Paths of groups.

ghost use Rattle.std.specs.Prelude.{◌≡◌, ◌≤◌, length, reverse};
ghost use Rattle.std.specs.List.{prefix_len};
ghost use Rattle.shr_model.specs.Pieces.{pieces, differs};
ghost use Rattle.shr_model.specs.Paths.{all_parts, is_path, parent_path};

use crate::bytes::is_name_word;
use crate::cursor::next;

// Whether each part between slashes is one of a path.
#[tactic(auto, unfolding(shr_model::specs::PieceParts::left))]
fn all_parts(bytes: &[u8]) -> bool
    ensures { result ≡ all_parts (pieces 47 bytes.now) }
{
    let mut rest = Some(bytes);
    while let Some((part, behind)) = next(rest, b'/') {
        if !is_name_word(part, 32) {
            return false;
        }
        rest = behind;
    }
    true
}

/// Whether a word is `/`, or one or more parts, each `/` and 1 to 32 bytes of `a` to `z`, `0` to
/// `9` and `_`.
#[tactic(auto, unfolding(shr_model::specs::Paths::is_path))]
pub fn is_path(word: &[u8]) -> bool
    ensures { result ≡ is_path word.now }
{
    match word {
        [] => false,
        [first, behind @ ..] => *first == b'/' && (behind.is_empty() || all_parts(behind)),
    }
}

// How many bytes follow the last /.
fn last_part_len(path: &[u8]) -> usize
    ensures len { result ≡ prefix_len (differs 47) (reverse path.now) }
    ensures within { result ≤ length path.now }
{
    path.iter().rev().take_while(|b| **b != b'/').count()
}

/// The path without its last part, or `/` where that is nothing.
#[tactic(auto, unfolding(shr_model::specs::Paths::parent_path))]
pub fn parent_path(path: &[u8]) -> &[u8]
    ensures { result.now ≡ parent_path path.now }
{
    let behind = last_part_len(path);
    if path.len() <= behind || path.len() - behind == 1 {
        return b"/";
    }
    &path[..path.len() - behind - 1]
}
