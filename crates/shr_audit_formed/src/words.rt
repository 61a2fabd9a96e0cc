// SPDX-License-Identifier: GPL-2.0-only
//! Classes of words.

ghost use Rattle.std.specs.Prelude.{◌≡◌};
ghost use Rattle.std.specs.List.{list_all};
ghost use Rattle.shr_model.specs.Words.{is_visible, is_key, is_value, is_name};

use shr_words::bytes::is_name_word;

fn is_visible(b: u8) -> bool
    ensures { result ≡ is_visible b }
{
    b.is_ascii_graphic()
}

fn all_visible(word: &[u8]) -> bool
    ensures { result ≡ list_all is_visible word.now }
{
    word.iter().all(|b| is_visible(*b))
}

/// Whether a word is a key.
pub fn is_key(word: &[u8]) -> bool
    ensures { result ≡ is_key word.now }
{
    !word.is_empty() && word.len() <= 64 && all_visible(word)
}

/// Whether a word is a value.
pub fn is_value(word: &[u8]) -> bool
    ensures { result ≡ is_value word.now }
{
    word.len() <= 255 && all_visible(word)
}

/// Whether a word is a name.
pub fn is_name(word: &[u8]) -> bool
    ensures { result ≡ is_name word.now }
{
    is_name_word(word, 16)
}
