// SPDX-License-Identifier: GPL-2.0-only
//! The next word of a line, of each class.

ghost use Rattle.std.specs.Prelude.{◌≡◌, true, false, ◌+◌, ◌≤◌, ◌<◌, length, slice_index_or, min, IfOk, IfSome, if◌then◌else◌};
ghost use Rattle.std.specs.List.{list_all};
ghost use Rattle.std.specs.Str.Parse.{digits_value};
ghost use Rattle.shr_words.specs.WordReading.{Gives, taken, ended, words_left, item_at, is_digit, is_numeral, number_spelled};
ghost use Rattle.shr_words.specs.Classes.{N, L, W, Number, Limit, Plain, PathTest, NameTest, KeyTest, Valued, Chosen, Policies, Kinds, Starts, Walks, PoolKinds, policy_place, flag_place, Listed, Marked};
ghost use Rattle.shr_words.specs.Runs.{taken_of, cut_at, IsDigit};
ghost use Rattle.shr_model.specs.Paths.{is_path};
ghost use Rattle.shr_model.specs.Pieces.{pieces};
ghost use Rattle.shr_model.specs.Words.{is_visible, is_name_byte};
ghost use Rattle.shr_base.specs.declared.scripts.Code.TheVariants.{BadPath, UnknownGroup, UnknownCache};

use crate::bytes::has_length;
use crate::cursor::next;
use crate::groups::Paths;
use crate::names::Names;
use crate::paths::is_path;
use crate::runs::{name_len, visible_len};
use shr_base::objects::Policy;
use shr_base::scripts::Code;

/// The next word, and what is left of the line behind it.
#[tactic(auto, unfolding(crate::specs::WordReading::taken))]
pub fn word(rest: Option<&[u8]>) -> Result<(&[u8], Option<&[u8]>), Code>
    ensures { Gives (λ x. (x.0.now, words_left x.1)) result (taken (words_left rest.entry)) }
{
    match next(rest, b' ') {
        Some(found) => Ok(found),
        None => Err(Code::Missing),
    }
}

// The word of n bytes, where the line ends or a space stands behind it.
#[tactic(auto, unfolding(shr_model::specs::PieceParts::left), using(std::proofs::lemmas::List::take_rest))]
#[inline(always)]
fn cut_at(bytes: &[u8], n: usize) -> Result<(&[u8], Option<&[u8]>), Code>
    requires { n ≤ length bytes.now }
    ensures { Gives (λ x. (x.0.now, words_left x.1)) result (cut_at n bytes.now) }
{
    if n == bytes.len() {
        return Ok((bytes, None));
    }
    if bytes[n] != b' ' {
        return Err(Code::BadText);
    }
    Ok((&bytes[..n], Some(&bytes[n + 1..])))
}

// The next word, where its bytes are visible.
#[inline(always)]
fn visible_word(rest: Option<&[u8]>) -> Result<(&[u8], Option<&[u8]>), Code>
    ensures { Gives (λ x. (x.0.now, words_left x.1)) result (taken_of is_visible
        (words_left rest.entry)) }
{
    match rest {
        Some(bytes) => cut_at(bytes, visible_len(bytes)),
        None => Err(Code::Missing),
    }
}

// The next word, where its bytes are those of names.
#[inline(always)]
fn name_word(rest: Option<&[u8]>) -> Result<(&[u8], Option<&[u8]>), Code>
    ensures { Gives (λ x. (x.0.now, words_left x.1)) result (taken_of is_name_byte
        (words_left rest.entry)) }
{
    match rest {
        Some(bytes) => cut_at(bytes, name_len(bytes)),
        None => Err(Code::Missing),
    }
}

/// A line ends behind its last word.
#[tactic(auto, unfolding(crate::specs::WordReading::ended))]
pub fn end(rest: Option<&[u8]>) -> Result<(), Code>
    ensures { Gives (λ x. x) result (ended (words_left rest.entry)) }
{
    match next(rest, b' ') {
        Some(_) => Err(Code::Trailing),
        None => Ok(()),
    }
}

fn all_digits(word: &[u8]) -> bool
    ensures { result ≡ list_all is_digit word.now }
{
    word.iter().all(|c| 48 <= *c && *c <= 57)
}

#[tactic(auto, unfolding(crate::specs::WordReading::is_numeral))]
fn is_numeral(word: &[u8]) -> bool
    ensures { result ≡ is_numeral word.now }
{
    all_digits(word) && !word.is_empty() && (word[0] != b'0' || word.len() == 1)
}

// The number that digits stand for, and 1,000,001 for each above a million.
fn value(word: &[u8]) -> u32
    requires { list_all is_digit word.now ≡ true }
    ensures { result ≡ min (digits_value 10 word.now) 1000001 }
{
    let mut n = 0;
    for b in word {
        n = (10 * n + (*b - 48) as u32).min(1_000_001);
    }
    n
}

#[tactic(auto, unfolding(crate::specs::WordReading::number_spelled), using(crate::proofs::DigitLaws::numeral_digits))]
fn number_in(word: &[u8], low: u32, high: u32) -> Result<u32, Code>
    ensures reads { Gives (λ n. n) result (number_spelled low high word.now) }
    ensures within { IfOk result (λ n. n < high) }
{
    if is_numeral(word) {
        let n = value(word);
        if low <= n && n < high && n <= 1_000_000 {
            return Ok(n);
        }
    }
    Err(Code::BadNumber)
}

// A number of one digit and what is behind it, where a space follows, as it mostly does.
#[tactic(auto, using(crate::proofs::DigitLaws::digit_taken))]
#[inline(always)]
fn digit(bytes: &[u8]) -> Option<(u32, &[u8])>
    ensures { IfSome result (λ x. IsDigit x.0 (pieces 32 x.1.now) (pieces 32 bytes.now)) }
{
    if bytes.len() < 2 || bytes[0] < b'0' || b'9' < bytes[0] || bytes[1] != b' ' {
        return None;
    }
    Some(((bytes[0] - b'0') as u32, &bytes[2..]))
}

/// A number from low to below high.
#[tactic(auto, unfolding(crate::specs::WordReading::item_at))]
#[inline(always)]
pub fn number(rest: Option<&[u8]>, low: u32, high: u32) -> Result<(u32, Option<&[u8]>), Code>
    ensures reads { Gives (λ x. (N x.0, words_left x.1)) result (item_at (Number low high)
        (words_left rest.entry)) }
    ensures within { IfOk result (λ x. x.0 < high) }
{
    if let Some(bytes) = rest {
        if let Some((n, behind)) = digit(bytes) {
            if low <= n && n < high {
                return Ok((n, Some(behind)));
            }
        }
    }
    let (word, rest) = word(rest)?;
    let n = number_in(word, low, high)?;
    Ok((n, rest))
}

/// `max`, or a number to a million.
#[tactic(auto, unfolding(crate::specs::WordReading::item_at, crate::specs::WordReading::limit_spelled))]
pub fn limit(rest: Option<&[u8]>) -> Result<(Option<u32>, Option<&[u8]>), Code>
    ensures { Gives (λ x. (L x.0, words_left x.1)) result (item_at Limit (words_left rest.entry)) }
{
    let (word, rest) = word(rest)?;
    if word == b"max".as_slice() {
        return Ok((None, rest));
    }
    let n = number_in(word, 0, 1_000_001)?;
    Ok((Some(n), rest))
}

/// A path.
#[tactic(auto, unfolding(crate::specs::WordReading::item_at, crate::specs::WordReading::text_of, crate::specs::Classes::passes))]
pub fn path(rest: Option<&[u8]>) -> Result<(&[u8], Option<&[u8]>), Code>
    ensures reads { Gives (λ x. (W x.0.now, words_left x.1)) result (item_at (Plain PathTest)
        (words_left rest.entry)) }
    ensures path { IfOk result (λ x. is_path x.0.now ≡ true) }
{
    let (word, rest) = word(rest)?;
    if is_path(word) {
        Ok((word, rest))
    } else {
        Err(Code::BadPath)
    }
}

/// A name.
#[tactic(auto, using(crate::proofs::ItemLaws::name_item))]
pub fn name(rest: Option<&[u8]>) -> Result<(&[u8], Option<&[u8]>), Code>
    ensures { Gives (λ x. (W x.0.now, words_left x.1)) result (item_at (Plain NameTest)
        (words_left rest.entry)) }
{
    let (word, rest) = name_word(rest)?;
    if has_length(word, 1, 16) {
        Ok((word, rest))
    } else {
        Err(Code::BadText)
    }
}

/// A key.
#[tactic(auto, using(crate::proofs::ItemLaws::key_item))]
pub fn key(rest: Option<&[u8]>) -> Result<(&[u8], Option<&[u8]>), Code>
    ensures { Gives (λ x. (W x.0.now, words_left x.1)) result (item_at (Plain KeyTest)
        (words_left rest.entry)) }
{
    let (word, rest) = visible_word(rest)?;
    if has_length(word, 1, 64) {
        Ok((word, rest))
    } else {
        Err(Code::BadText)
    }
}

/// A value, without its `=`.
#[tactic(auto, using(crate::proofs::ItemLaws::text_item, crate::proofs::ItemLaws::text_value))]
#[inline(always)]
pub fn text(rest: Option<&[u8]>) -> Result<(&[u8], Option<&[u8]>), Code>
    ensures { Gives (λ x. (W x.0.now, words_left x.1)) result
        (item_at Valued (words_left rest.entry)) }
{
    let (word, rest) = visible_word(rest)?;
    match word {
        [] => Err(Code::BadText),
        [first, value @ ..] => {
            if *first == b'=' && has_length(value, 0, 255) {
                Ok((value, rest))
            } else {
                Err(Code::BadText)
            }
        }
    }
}

// What is wrong with a word that is no declared path.
#[inline(never)]
fn no_group(word: &[u8]) -> Code
    ensures { result ≡ (if is_path word.now then UnknownGroup else BadPath) }
{
    if is_path(word) {
        Code::UnknownGroup
    } else {
        Code::BadPath
    }
}

/// The number of a group that was declared.
#[tactic(auto, unfolding(crate::specs::WordReading::item_at, crate::specs::WordReading::listed_of, crate::specs::Classes::passes))]
#[inline(always)]
pub fn group<'a>(rest: Option<&'a [u8]>, groups: &Paths) -> Result<(u16, Option<&'a [u8]>), Code>
    ensures reads { Gives (λ x. (N x.0, words_left x.1)) result
        (item_at (Listed PathTest UnknownGroup groups.now) (words_left rest.entry)) }
    ensures within { IfOk result (λ x. x.0 < 256) }
{
    let (word, rest) = word(rest)?;
    // Only where none is found the parts of the word are looked at.
    match groups.place(word) {
        Some(group) => Ok((group, rest)),
        None => Err(no_group(word)),
    }
}

/// The number of a cache that was declared.
#[tactic(auto, using(crate::proofs::ItemLaws::cache_item))]
#[inline(always)]
pub fn cache<'a>(rest: Option<&'a [u8]>, caches: &Names) -> Result<(u16, Option<&'a [u8]>), Code>
    ensures reads { Gives (λ x. (N x.0, words_left x.1)) result
        (item_at (Listed NameTest UnknownCache caches.now) (words_left rest.entry)) }
    ensures within { IfOk result (λ x. x.0 < 256) }
{
    let (word, rest) = name_word(rest)?;
    if !has_length(word, 1, 16) {
        return Err(Code::BadText);
    }
    match caches.place(word) {
        Some(cache) => Ok((cache, rest)),
        None => Err(Code::UnknownCache),
    }
}

/// Whether a place is marked; one behind the last mark isn't.
pub fn is_marked(marks: &[bool], place: u16) -> bool
    ensures { result ≡ slice_index_or marks.now place false }
{
    match marks.get(place as usize) {
        Some(mark) => *mark,
        None => false,
    }
}

/// The number of a group that was declared and is marked.
#[tactic(auto, using(crate::proofs::ItemLaws::marked_is))]
pub fn marked_group<'a>(
    rest: Option<&'a [u8]>,
    groups: &Paths,
    marks: &[bool],
) -> Result<(u16, Option<&'a [u8]>), Code>
    ensures reads { Gives (λ x. (N x.0, words_left x.1)) result
        (item_at (Marked PathTest UnknownGroup groups.now marks.now) (words_left rest.entry)) }
    ensures within { IfOk result (λ x. x.0 < 256) }
{
    let (group, rest) = group(rest, groups)?;
    if is_marked(marks, group) {
        Ok((group, rest))
    } else {
        Err(Code::UnknownGroup)
    }
}

/// `any`, or `fs`.
#[tactic(auto, unfolding(crate::specs::WordReading::item_at, crate::specs::WordReading::chosen_of, crate::specs::Classes::place_of))]
pub fn cache_kind(rest: Option<&[u8]>) -> Result<(bool, Option<&[u8]>), Code>
    ensures { Gives (λ x. (N (flag_place x.0), words_left x.1)) result (item_at (Chosen Kinds)
        (words_left rest.entry)) }
{
    let (word, rest) = word(rest)?;
    if word == b"any".as_slice() {
        Ok((false, rest))
    } else if word == b"fs".as_slice() {
        Ok((true, rest))
    } else {
        Err(Code::UnknownWord)
    }
}

/// `off`, or `on`.
#[tactic(auto, unfolding(crate::specs::WordReading::item_at, crate::specs::WordReading::chosen_of, crate::specs::Classes::place_of))]
pub fn at_start(rest: Option<&[u8]>) -> Result<(bool, Option<&[u8]>), Code>
    ensures { Gives (λ x. (N (flag_place x.0), words_left x.1)) result (item_at (Chosen Starts)
        (words_left rest.entry)) }
{
    let (word, rest) = word(rest)?;
    if word == b"off".as_slice() {
        Ok((false, rest))
    } else if word == b"on".as_slice() {
        Ok((true, rest))
    } else {
        Err(Code::UnknownWord)
    }
}

/// `plain`, `clock` or `halt`.
#[tactic(auto, unfolding(crate::specs::WordReading::item_at, crate::specs::WordReading::chosen_of, crate::specs::Classes::place_of))]
pub fn policy(rest: Option<&[u8]>) -> Result<(Policy, Option<&[u8]>), Code>
    ensures { Gives (λ x. (N (policy_place x.0), words_left x.1)) result (item_at (Chosen Policies)
        (words_left rest.entry)) }
{
    let (word, rest) = word(rest)?;
    if word == b"plain".as_slice() {
        Ok((Policy::Plain, rest))
    } else if word == b"clock".as_slice() {
        Ok((Policy::Clock, rest))
    } else if word == b"halt".as_slice() {
        Ok((Policy::Halt, rest))
    } else {
        Err(Code::UnknownWord)
    }
}

/// `fs`, or `nofs`.
#[tactic(auto, unfolding(crate::specs::WordReading::item_at, crate::specs::WordReading::chosen_of, crate::specs::Classes::place_of))]
pub fn walk_kind(rest: Option<&[u8]>) -> Result<(bool, Option<&[u8]>), Code>
    ensures { Gives (λ x. (N (flag_place x.0), words_left x.1)) result (item_at (Chosen Walks)
        (words_left rest.entry)) }
{
    let (word, rest) = word(rest)?;
    if word == b"fs".as_slice() {
        Ok((false, rest))
    } else if word == b"nofs".as_slice() {
        Ok((true, rest))
    } else {
        Err(Code::UnknownWord)
    }
}

/// `nodes`, or `flat`.
#[tactic(auto, unfolding(crate::specs::WordReading::item_at, crate::specs::WordReading::chosen_of, crate::specs::Classes::place_of))]
pub fn pool_kind(rest: Option<&[u8]>) -> Result<(bool, Option<&[u8]>), Code>
    ensures { Gives (λ x. (N (flag_place x.0), words_left x.1)) result (item_at (Chosen PoolKinds)
        (words_left rest.entry)) }
{
    let (word, rest) = word(rest)?;
    if word == b"nodes".as_slice() {
        Ok((false, rest))
    } else if word == b"flat".as_slice() {
        Ok((true, rest))
    } else {
        Err(Code::UnknownWord)
    }
}
