// SPDX-License-Identifier: GPL-2.0-only
//! How many bytes are of a class, from the first on. Where there are so many, eight are looked at
//! together, and sixteen where a space alone ends them, as it ends a long path.

ghost use Rattle.std.specs.Prelude.{◌≡◌, ◌+◌, ◌≤◌, length};
ghost use Rattle.std.specs.List.{prefix_len};
ghost use Rattle.shr_model.specs.Pieces.{differs};
ghost use Rattle.shr_model.specs.Words.{is_visible, is_name_byte};
ghost use Rattle.shr_words.specs.Runs.{IsRunIn, first_set};

use crate::bytes::{is_name_byte, is_visible};
use std::simd::prelude::*;

const LANES: usize = 8;

const WORD_LANES: usize = 16;

#[inline(always)]
fn first_set(mask: u64, lanes: usize) -> usize
    ensures { result ≡ first_set mask lanes }
{
    if mask == 0 {
        lanes
    } else {
        mask.trailing_zeros() as usize
    }
}

#[inline(always)]
fn visible_run(bytes: &[u8], at: usize) -> usize
    requires { at + LANES ≤ length bytes.now }
    ensures { IsRunIn is_visible bytes.now at LANES result }
{
    let above_space = u8x8::from_slice(&bytes[at..]) - u8x8::splat(33);
    let stops = above_space.simd_ge(u8x8::splat(94));
    first_set(stops.to_bitmask(), LANES)
}

#[inline(always)]
fn name_run(bytes: &[u8], at: usize) -> usize
    requires { at + LANES ≤ length bytes.now }
    ensures { IsRunIn is_name_byte bytes.now at LANES result }
{
    let v = u8x8::from_slice(&bytes[at..]);
    let no_letter = (v - u8x8::splat(b'a')).simd_ge(u8x8::splat(26));
    let no_digit = (v - u8x8::splat(b'0')).simd_ge(u8x8::splat(10));
    let stops = no_letter & no_digit & v.simd_ne(u8x8::splat(b'_'));
    first_set(stops.to_bitmask(), LANES)
}

#[inline(always)]
fn word_run(bytes: &[u8], at: usize) -> usize
    requires { at + WORD_LANES ≤ length bytes.now }
    ensures { IsRunIn (differs 32) bytes.now at WORD_LANES result }
{
    let stops = u8x16::from_slice(&bytes[at..]).simd_eq(u8x16::splat(b' '));
    first_set(stops.to_bitmask(), WORD_LANES)
}

fn few_of_word(bytes: &[u8]) -> usize
    ensures front { result ≡ prefix_len (differs 32) bytes.now }
    ensures within { result ≤ length bytes.now }
{
    bytes.iter().take_while(|b| **b != b' ').count()
}

fn few_visible(bytes: &[u8]) -> usize
    ensures front { result ≡ prefix_len is_visible bytes.now }
    ensures within { result ≤ length bytes.now }
{
    bytes.iter().take_while(|b| is_visible(**b)).count()
}

fn few_name_bytes(bytes: &[u8]) -> usize
    ensures front { result ≡ prefix_len is_name_byte bytes.now }
    ensures within { result ≤ length bytes.now }
{
    bytes.iter().take_while(|b| is_name_byte(**b)).count()
}

/// How many bytes from 33 to 126 there are before the first other.
#[inline(always)]
pub(crate) fn visible_len(bytes: &[u8]) -> usize
    ensures front { result ≡ prefix_len is_visible bytes.now }
    ensures within { result ≤ length bytes.now }
{
    if bytes.len() < LANES {
        return few_visible(bytes);
    }
    let mut n = 0;
    while LANES <= bytes.len() - n {
        let run = visible_run(bytes, n);
        n += run;
        if run < LANES {
            return n;
        }
    }
    // The last eight may overlap those before.
    let last = bytes.len() - LANES;
    last + visible_run(bytes, last)
}

/// How many bytes of names there are before the first other.
#[inline(always)]
pub(crate) fn name_len(bytes: &[u8]) -> usize
    ensures front { result ≡ prefix_len is_name_byte bytes.now }
    ensures within { result ≤ length bytes.now }
{
    if bytes.len() < LANES {
        return few_name_bytes(bytes);
    }
    let mut n = 0;
    while LANES <= bytes.len() - n {
        let run = name_run(bytes, n);
        n += run;
        if run < LANES {
            return n;
        }
    }
    // The last eight may overlap those before.
    let last = bytes.len() - LANES;
    last + name_run(bytes, last)
}

/// How many bytes there are before the first space.
#[inline(always)]
pub(crate) fn word_len(bytes: &[u8]) -> usize
    ensures front { result ≡ prefix_len (differs 32) bytes.now }
    ensures within { result ≤ length bytes.now }
{
    if bytes.len() < WORD_LANES {
        return few_of_word(bytes);
    }
    let mut n = 0;
    while WORD_LANES <= bytes.len() - n {
        let run = word_run(bytes, n);
        n += run;
        if run < WORD_LANES {
            return n;
        }
    }
    // The last sixteen may overlap those before.
    let last = bytes.len() - WORD_LANES;
    last + word_run(bytes, last)
}
