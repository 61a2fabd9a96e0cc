// SPDX-License-Identifier: GPL-2.0-only
//! Lines of words on a paper.
//!
//! Lines that a long run has many of are printed from pieces (`piece.rt`), any other from an array of its words.

ghost use Rattle.std.specs.Prelude.{◌≡◌, ◌<◌, [], ◌∷◌, ◌++◌};
ghost use Rattle.shr_outside.specs.Paper.{Prints};
ghost use Rattle.shr_laws.specs.Lines.{line, spaced, numeral};
ghost use Rattle.shr_laws.specs.WellFormed.{IsNumbered, IsBitWord};
ghost use Rattle.shr_report.specs.Words.{word_text, word_texts};

use itoa::Buffer;
use shr_base::places::Place;
use shr_outside::outside::Sink;
use shr_outside::paper::Paper;

/// A word of a line.
#[derive(Clone, Copy)]
pub enum Word<'a> {
    /// Bytes as they are.
    Text(&'a [u8]),
    /// A value, behind its `=`.
    Value(&'a [u8]),
    /// A number in decimal.
    Number(u64),
}

/// A space and a text.
#[inline(always)]
pub fn add_text<K: Sink>(out: &mut Paper<K>, text: &[u8])
    ensures { Prints K.written K.faults out.old out.new (32 ∷ text.now) }
{
    out.put(b" ");
    out.put(text);
}

/// A space and a value, behind its `=`.
#[inline]
pub fn add_value<K: Sink>(out: &mut Paper<K>, value: &[u8])
    ensures { Prints K.written K.faults out.old out.new (32 ∷ 61 ∷ value.now) }
{
    out.put(b" =");
    out.put(value);
}

// A space and a number in decimal.
fn add_number<K: Sink>(out: &mut Paper<K>, n: u64)
    ensures { Prints K.written K.faults out.old out.new (32 ∷ numeral n) }
{
    let mut buffer = Buffer::new();
    out.put(b" ");
    out.put(buffer.format(n).as_bytes());
}

// A space and the word.
fn put_word<K: Sink>(out: &mut Paper<K>, word: &Word)
    ensures { Prints K.written K.faults out.old out.new (32 ∷ word_text word.now) }
{
    match *word {
        Word::Text(text) => add_text(out, text),
        Word::Value(value) => add_value(out, value),
        Word::Number(n) => add_number(out, n),
    }
}

/// A last word behind its space, and the line feed.
#[inline]
pub fn end_with<K: Sink>(out: &mut Paper<K>, text: &[u8])
    ensures { Prints K.written K.faults out.old out.new (32 ∷ (text.now ++ 10 ∷ [])) }
{
    add_text(out, text);
    out.put(b"\n");
}

// Words of a line, each behind a space.
fn put_words<K: Sink>(out: &mut Paper<K>, words: &[Word])
    ensures { Prints K.written K.faults out.old out.new (spaced (word_texts words.now)) }
{
    for word in words {
        put_word(out, word);
    }
}

// The last words of a line, and its line feed.
fn put_rest<K: Sink>(out: &mut Paper<K>, words: &[Word])
    ensures { Prints K.written K.faults out.old out.new
        (spaced (word_texts words.now) ++ 10 ∷ []) }
{
    put_words(out, words);
    out.put(b"\n");
}

/// A line of these words.
pub fn put_line<K: Sink>(out: &mut Paper<K>, first: &[u8], words: &[Word])
    ensures { Prints K.written K.faults out.old out.new (line first.now (word_texts words.now)) }
{
    out.put(first);
    put_rest(out, words)
}

/// A line of a place and an amount.
pub fn put_amount<K: Sink>(out: &mut Paper<K>, first: &[u8], place: Place, amount: u64)
    ensures printed { Prints K.written K.faults out.old out.new
        (line first.now (numeral place.id ∷ numeral place.node ∷ numeral place.group
        ∷ numeral amount ∷ [])) }
    ensures numbers { IsNumbered place × IsBitWord amount }
{
    put_line(
        out,
        first,
        &[
            Word::Number(place.id as u64),
            Word::Number(place.node as u64),
            Word::Number(place.group as u64),
            Word::Number(amount),
        ],
    )
}
