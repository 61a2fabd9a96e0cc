// SPDX-License-Identifier: GPL-2.0-only
//! Tests of the bytes of a word.

ghost use Rattle.std.specs.Prelude.{◌≡◌, length};
ghost use Rattle.std.specs.List.{list_all};
ghost use Rattle.shr_model.specs.Words.{is_visible, is_name_byte, is_between, is_word};

/// Whether it is a byte of names: `a` to `z`, `0` to `9` or `_`.
pub(crate) fn is_name_byte(b: u8) -> bool
    ensures { result ≡ is_name_byte b }
{
    b.is_ascii_lowercase() || b.is_ascii_digit() || b == b'_'
}

/// Whether it is a byte from 33 to 126.
pub(crate) fn is_visible(b: u8) -> bool
    ensures { result ≡ is_visible b }
{
    b.is_ascii_graphic()
}

fn all_name_bytes(word: &[u8]) -> bool
    ensures { result ≡ list_all is_name_byte word.now }
{
    word.iter().all(|b| is_name_byte(*b))
}

/// Whether a word is `shortest` to `longest` bytes.
#[inline]
pub(crate) fn has_length(word: &[u8], shortest: usize, longest: usize) -> bool
    ensures { result ≡ is_between shortest longest (length word.now) }
{
    shortest <= word.len() && word.len() <= longest
}

/// Whether a word is 1 to `longest` bytes of `a` to `z`, `0` to `9` and `_`.
pub fn is_name_word(word: &[u8], longest: usize) -> bool
    ensures { result ≡ is_word is_name_byte 1 longest word.now }
{
    !word.is_empty() && word.len() <= longest && all_name_bytes(word)
}
