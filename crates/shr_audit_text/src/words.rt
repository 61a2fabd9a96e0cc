// SPDX-License-Identifier: GPL-2.0-only
//! Words and numbers of a line, whatever its bytes are.

ghost use Rattle.std.specs.Prelude.{◌≡◌, ◌≤◌, ◌^◌, ◌≤ℤ◌, ◌<ℤ◌, pos, neg_ℤ, IfSome, IfNone};
ghost use Rattle.shr_report.specs.ReadWords.{bytes_later, first_of, is_none, later, num, digit_of, unhex, signed_num};
ghost use Rattle.shr_words.specs.WordReading.{words_left};

use shr_words::cursor::next;

/// The next word, or an empty one where none is left, and the words behind it.
pub fn word(rest: Option<&[u8]>) -> (&[u8], Option<&[u8]>)
    ensures first { result.0.now ≡ first_of (words_left rest.entry) }
    ensures later { words_left result.1 ≡ later (words_left rest.entry) }
{
    match next(rest, b' ') {
        Some(found) => found,
        None => (b"", None),
    }
}

/// Whether no word is left.
#[tactic(auto, unfolding(shr_model::specs::PieceParts::left, shr_model::specs::Pieces::pieces))]
pub fn is_over(rest: Option<&[u8]>) -> bool
    ensures { result ≡ is_none (words_left rest.entry) }
{
    match rest {
        None => true,
        Some(_) => false,
    }
}

/// The number that a word writes, where it has 64 bits. The bytes may be any: that they are digits is
/// for the printed text to tell.
pub fn number(word: &[u8]) -> Option<u64>
    ensures some { IfSome result (λ n. n ≡ num word.now) }
    ensures none { IfNone result (2 ^ 64 ≤ num word.now) }
{
    let mut n = 0u64;
    for b in word {
        let Some(tens) = n.checked_mul(10) else {
            return None;
        };
        let Some(more) = tens.checked_add(b.saturating_sub(48) as u64) else {
            return None;
        };
        n = more;
    }
    Some(n)
}

/// The same of a number of 32 bits.
pub fn number_32(word: &[u8]) -> Option<u32>
    ensures some { IfSome result (λ n. n ≡ num word.now) }
    ensures none { IfNone result (2 ^ 32 ≤ num word.now) }
{
    let Some(n) = number(word) else {
        return None;
    };
    if n <= 0xffff_ffff {
        Some(n as u32)
    } else {
        None
    }
}

/// The same of a number of 16 bits.
pub fn number_16(word: &[u8]) -> Option<u16>
    ensures some { IfSome result (λ n. n ≡ num word.now) }
    ensures none { IfNone result (2 ^ 16 ≤ num word.now) }
{
    let Some(n) = number(word) else {
        return None;
    };
    if n <= 0xffff { Some(n as u16) } else { None }
}

/// The same of a number of 8 bits.
pub fn number_8(word: &[u8]) -> Option<u8>
    ensures some { IfSome result (λ n. n ≡ num word.now) }
    ensures none { IfNone result (2 ^ 8 ≤ num word.now) }
{
    let Some(n) = number(word) else {
        return None;
    };
    if n <= 0xff { Some(n as u8) } else { None }
}

// What a hexadecimal digit says.
#[tactic(auto, unfolding(shr_report::specs::ReadWords::digit_of))]
fn digit(b: u8) -> u64
    ensures { result ≡ digit_of b }
{
    if b < 58 {
        b.saturating_sub(48) as u64
    } else {
        b.saturating_sub(87) as u64
    }
}

/// The number that a word writes in hexadecimal, where it has 64 bits. The bytes may be any.
pub fn hexadecimal(word: &[u8]) -> Option<u64>
    ensures some { IfSome result (λ n. n ≡ unhex word.now) }
    ensures none { IfNone result (2 ^ 64 ≤ unhex word.now) }
{
    let mut n = 0u64;
    for b in word {
        let Some(sixteens) = n.checked_mul(16) else {
            return None;
        };
        let Some(more) = sixteens.checked_add(digit(*b)) else {
            return None;
        };
        n = more;
    }
    Some(n)
}

/// The number with a sign that a word writes, where it has 64 bits. The bytes may be any.
#[tactic(auto, unfolding(shr_report::specs::ReadWords::signed_num, shr_report::specs::ReadWords::starts_minus, shr_report::specs::ReadWords::later_bytes))]
pub fn signed(word: &[u8]) -> Option<i64>
    ensures some { IfSome result (λ n. n ≡ signed_num word.now) }
    ensures none { IfNone result ((neg_ℤ (pos (2 ^ 63)) ≤ℤ signed_num word.now)
        × (signed_num word.now <ℤ pos (2 ^ 63)) → ⊥) }
{
    if let [b'-', digits @ ..] = word {
        let n = number(digits)?.saturating_sub(1);
        if n <= 0x7fff_ffff_ffff_ffff {
            Some(-1 - n as i64)
        } else {
            None
        }
    } else {
        let n = number(word)?;
        if n <= 0x7fff_ffff_ffff_ffff {
            Some(n as i64)
        } else {
            None
        }
    }
}

/// The bytes behind the first, as those of a value behind its `=`.
pub fn behind_first(word: &[u8]) -> &[u8]
    ensures { result.now ≡ bytes_later word.now }
{
    match word {
        [] => b"",
        [_, others @ ..] => others,
    }
}
