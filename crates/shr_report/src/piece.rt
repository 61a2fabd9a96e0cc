// SPDX-License-Identifier: GPL-2.0-only
//! A piece of a line, written from its last word to its first.

ghost use Rattle.std.specs.Prelude.{◌≡◌, ◌<◌, ◌≤◌, ◌+◌, [], ◌∷◌, ◌++◌, codes, drop, length};
ghost use Rattle.shr_outside.specs.Paper.{Prints};
ghost use Rattle.shr_laws.specs.Lines.{numeral, signed_numeral, hex, hex_digit};
ghost use Rattle.shr_laws.specs.AnswerText.{choice};

use itoa::write_digits;
use shr_outside::outside::Sink;
use shr_outside::paper::Paper;
use std::marker::Model;

// The most bytes of a piece: a line of the longest key and value that a script may have, and more.
const ROOM: usize = 512;

/// The bytes that a piece of a line is written to: words in a row, each behind its space. The digits of a number come
/// last to first, and so do the words; then the whole piece is put behind a text at once. Contracts see the bytes.
///
/// The piece is what stands from an index on. Each function takes this index, puts something before it and returns
/// where the piece begins now. The index is no field, so that it isn't stored and read again at each byte.
#[derive(Drop)]
pub struct Piece {
    bytes: [u8; ROOM],
}

impl Model for Piece {
    ghost use Rattle.std.specs.Prelude.{List, ℕ};

    ghost Value = { List ℕ };

    ghost view = { λ p. p.bytes };
}

fn hex_digit_of(n: u64) -> u8
    requires { n < 16 }
    ensures { result ≡ hex_digit n }
{
    if n < 10 {
        b'0' + n as u8
    } else {
        b'a' + (n - 10) as u8
    }
}

impl Piece {
    /// Any bytes.
    #[inline(always)]
    pub fn new() -> Piece {
        Piece { bytes: [0; ROOM] }
    }

    /// Nothing yet.
    #[tactic(auto, using(std::proofs::lemmas::List::drop_all))]
    #[inline(always)]
    pub fn nothing(&self) -> usize
        ensures text { drop result self.now ≡ [] }
        ensures start { result ≡ 512 }
    {
        let bytes: &[u8] = &self.bytes;
        bytes.len()
    }

    /// The end of a line.
    #[inline(always)]
    pub fn line_end(&mut self) -> usize
        ensures text { drop result self.new ≡ 10 ∷ [] }
        ensures start { result ≡ 511 }
    {
        let end = self.nothing();
        self.byte(end, b'\n')
    }

    /// A byte.
    #[inline(always)]
    pub fn byte(&mut self, end: usize, byte: u8) -> usize
        requires { (1 ≤ end) × (end ≤ 512) }
        ensures text { drop result self.new ≡ byte ∷ drop end self.old }
        ensures start { result + 1 ≡ end }
    {
        self.bytes[end - 1] = byte;
        end - 1
    }

    // The digits of a number.
    #[tactic(auto, using(crate::proofs::Pieces::few_digits, crate::proofs::Pieces::digits_before))]
    #[inline(always)]
    fn digits(&mut self, end: usize, n: u64) -> usize
        requires { (20 ≤ end) × (end ≤ 512) }
        ensures text { drop result self.new ≡ numeral n ++ drop end self.old }
        ensures start { (end ≤ result + 20) × (result ≤ end) }
    {
        write_digits(n, &mut self.bytes, end)
    }

    /// A space and a number. Most have one digit.
    #[tactic(auto, using(crate::proofs::Pieces::one_digit))]
    #[inline(always)]
    pub fn number(&mut self, end: usize, n: u64) -> usize
        requires { (21 ≤ end) × (end ≤ 512) }
        ensures text { drop result self.new ≡ 32 ∷ (numeral n ++ drop end self.old) }
        ensures start { (end ≤ result + 21) × (result ≤ end) }
    {
        let start = if n < 10 {
            self.byte(end, b'0' + n as u8)
        } else {
            self.digits(end, n)
        };
        self.byte(start, b' ')
    }

    /// A space and a number of either sign.
    #[inline(always)]
    pub fn signed(&mut self, end: usize, n: i64) -> usize
        requires { (22 ≤ end) × (end ≤ 512) }
        ensures text { drop result self.new ≡ 32 ∷ (signed_numeral n ++ drop end self.old) }
        ensures start { (end ≤ result + 22) × (result ≤ end) }
    {
        let mut start = self.digits(end, n.unsigned_abs());
        if n < 0 {
            start = self.byte(start, b'-');
        }
        self.byte(start, b' ')
    }

    /// A space and a `+` where the test holds, a `-` where it doesn't.
    #[inline(always)]
    pub fn sign(&mut self, end: usize, test: bool) -> usize
        requires { (2 ≤ end) × (end ≤ 512) }
        ensures text { drop result self.new
            ≡ 32 ∷ (choice test (codes "+") (codes "-") ++ drop end self.old) }
        ensures start { result + 2 ≡ end }
    {
        let start = self.byte(end, if test { b'+' } else { b'-' });
        self.byte(start, b' ')
    }

    // The hexadecimal digits of a word of a table. Most words are 0 or have one low bit.
    #[inline(always)]
    fn hex_digits(&mut self, end: usize, n: u64) -> usize
        requires { (16 ≤ end) × (end ≤ 512) }
        ensures text { drop result self.new ≡ hex n ++ drop end self.old }
        ensures start { result + 16 ≡ end }
    {
        if n < 16 {
            let start = self.byte(end, hex_digit_of(n));
            return self.exactly(start, b"000000000000000");
        }
        let mut start = end;
        let mut left = n;
        let mut digits = 16u8;
        while digits > 0 {
            start = self.byte(start, hex_digit_of(left % 16));
            left /= 16;
            digits -= 1;
        }
        start
    }

    /// A space and a word of a table, in sixteen hexadecimal digits.
    #[inline(always)]
    pub fn hex(&mut self, end: usize, n: u64) -> usize
        requires { (17 ≤ end) × (end ≤ 512) }
        ensures text { drop result self.new ≡ 32 ∷ (hex n ++ drop end self.old) }
        ensures start { result + 17 ≡ end }
    {
        let start = self.hex_digits(end, n);
        self.byte(start, b' ')
    }

    /// Bytes as they are, of a length that the compiler knows: it makes a few stores of the loop.
    #[inline(always)]
    pub fn exactly(&mut self, end: usize, bytes: &[u8]) -> usize
        requires { (length bytes.now ≤ end) × (end ≤ 512) }
        ensures text { drop result self.new ≡ bytes.now ++ drop end self.old }
        ensures start { result + length bytes.now ≡ end }
    {
        let mut start = end;
        let mut left = bytes.len();
        while left > 0 {
            left -= 1;
            start = self.byte(start, bytes[left]);
        }
        start
    }

    /// A space and a word, of a length that the compiler knows.
    #[inline(always)]
    pub fn word(&mut self, end: usize, word: &[u8]) -> usize
        requires { (length word.now + 1 ≤ end) × (end ≤ 512) }
        ensures text { drop result self.new ≡ 32 ∷ (word.now ++ drop end self.old) }
        ensures start { result + length word.now + 1 ≡ end }
    {
        let start = self.exactly(end, word);
        self.byte(start, b' ')
    }

    /// A space and one word where the test holds, another where it doesn't, each of a length that the compiler knows.
    #[inline(always)]
    pub fn either(&mut self, end: usize, test: bool, yes: &[u8], no: &[u8]) -> usize
        requires { (length yes.now + 1 ≤ end) × (length no.now + 1 ≤ end) × (end ≤ 512) }
        ensures text { drop result self.new ≡ 32
            ∷ (choice test yes.now no.now ++ drop end self.old) }
        ensures start { (end ≤ result + length yes.now + length no.now + 1) × (result ≤ end) }
    {
        if test {
            self.word(end, yes)
        } else {
            self.word(end, no)
        }
    }

    /// Bytes of any length.
    #[inline(always)]
    pub fn copied(&mut self, end: usize, bytes: &[u8]) -> usize
        requires { (length bytes.now ≤ end) × (end ≤ 512) }
        ensures text { drop result self.new ≡ bytes.now ++ drop end self.old }
        ensures start { result + length bytes.now ≡ end }
    {
        let start = end - bytes.len();
        self.bytes[start..end].copy_from_slice(bytes);
        start
    }

    /// A space and a text.
    #[inline(always)]
    pub fn text(&mut self, end: usize, text: &[u8]) -> usize
        requires { (length text.now + 1 ≤ end) × (end ≤ 512) }
        ensures text { drop result self.new ≡ 32 ∷ (text.now ++ drop end self.old) }
        ensures start { result + length text.now + 1 ≡ end }
    {
        let start = self.copied(end, text);
        self.byte(start, b' ')
    }

    /// A space and a value behind its `=`.
    #[inline(always)]
    pub fn value(&mut self, end: usize, value: &[u8]) -> usize
        requires { (length value.now + 2 ≤ end) × (end ≤ 512) }
        ensures text { drop result self.new ≡ 32 ∷ 61 ∷ (value.now ++ drop end self.old) }
        ensures start { result + length value.now + 2 ≡ end }
    {
        let start = self.copied(end, value);
        let start = self.byte(start, b'=');
        self.byte(start, b' ')
    }

    /// Puts the piece on a paper.
    #[inline(always)]
    pub fn put<K: Sink>(&self, start: usize, out: &mut Paper<K>)
        requires { start ≤ 512 }
        ensures { Prints K.written K.faults out.old out.new (drop start self.now) }
    {
        out.put(&self.bytes[start..]);
    }
}
