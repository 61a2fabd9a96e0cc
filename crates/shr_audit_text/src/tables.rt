// SPDX-License-Identifier: GPL-2.0-only
//! Amounts, words of bits, charges, numbers of lookups, sizes and totals, from the words of their
//! lines.

ghost use Rattle.std.specs.Prelude.{◌≡◌, ◌<◌, ◌^◌, [], IfSome, IfNone};
ghost use Rattle.shr_report.specs.ReadLines.{read_amount, read_bit, read_use, read_lookups, read_found};
ghost use Rattle.shr_laws.specs.Numbers.{IsCountNumber, IsMapNumbered, IsAmountNumbered, IsUseNumbered, IsFindNumbered};
ghost use Rattle.shr_words.specs.WordReading.{words_left};

use crate::spent::{place, serial};
use crate::words::{hexadecimal, number, number_8, number_16, number_32, signed, word};
use shr_base::ends::{MapEnd, PlaceAmount};
use shr_base::journals::UseStep;
use shr_base::replies::Found;

/// A place's amount, from the words behind the first of its line, which says a deferred word or a
/// carry. None: its numbers don't have the ranges of their types.
pub fn amount(rest: Option<&[u8]>) -> Option<PlaceAmount>
    ensures some { IfSome result (λ a. a ≡ read_amount [] (words_left rest.entry)) }
    ensures none { IfNone result (IsAmountNumbered (read_amount [] (words_left rest.entry)) → ⊥) }
{
    let place = place(rest)?;
    let (_, rest) = word(rest);
    let (_, rest) = word(rest);
    let (_, rest) = word(rest);
    let (amount, _) = word(rest);
    Some(PlaceAmount {
        place,
        amount: number(amount)?,
    })
}

/// A word of bits at the end, from the words behind the first of its line: version 1 says no unit.
/// None as for an amount.
pub fn bit(version: u8, rest: Option<&[u8]>) -> Option<MapEnd>
    ensures some { IfSome result (λ m. m ≡ read_bit version [] (words_left rest.entry)) }
    ensures none { IfNone result (IsMapNumbered (read_bit version [] (words_left rest.entry)) → ⊥) }
{
    let (node, rest) = word(rest);
    let (group, rest) = word(rest);
    let (third, rest) = word(rest);
    let (fourth, _) = word(rest);
    let node = number_8(node)?;
    let group = number_16(group)?;
    if version == 1 {
        return Some(MapEnd {
            node,
            group,
            unit: 0,
            bits: hexadecimal(third)?,
        });
    }
    Some(MapEnd {
        node,
        group,
        unit: number_8(third)?,
        bits: hexadecimal(fourth)?,
    })
}

/// A charge or uncharge, from the words behind the first of its line. None as for an amount.
pub fn use_step(rest: Option<&[u8]>) -> Option<UseStep>
    ensures some { IfSome result (λ u. u ≡ read_use [] (words_left rest.entry)) }
    ensures none { IfNone result (IsUseNumbered (read_use [] (words_left rest.entry)) → ⊥) }
{
    let (group, rest) = word(rest);
    let (operation, rest) = word(rest);
    let (up, rest) = word(rest);
    let (found, rest) = word(rest);
    Some(UseStep {
        found: signed(found)?,
        operation: number_32(operation)?,
        by: serial(rest)?,
        group: number_16(group)?,
        up: up == b"+".as_slice(),
    })
}

/// An id's number of lookups, from the words behind the first of its line. None: it doesn't have 32
/// bits.
pub fn lookups(rest: Option<&[u8]>) -> Option<u32>
    ensures some { IfSome result (λ n. n ≡ read_lookups [] (words_left rest.entry)) }
    ensures none { IfNone result (IsCountNumber (read_lookups [] (words_left rest.entry)) → ⊥) }
{
    let (_, rest) = word(rest);
    let (lookups, _) = word(rest);
    number_32(lookups)
}

/// What `find` gave, from the words behind the first of its line. None as for an amount.
pub fn found(rest: Option<&[u8]>) -> Option<Found>
    ensures some { IfSome result (λ f. f ≡ read_found [] (words_left rest.entry)) }
    ensures none { IfNone result (IsFindNumbered (Some (read_found [] (words_left rest.entry)))
        → ⊥) }
{
    let (id, rest) = word(rest);
    let (number, rest) = word(rest);
    let (entry, _) = word(rest);
    Some(Found {
        id: number_16(id)?,
        number: number_32(number)?,
        entry: number_32(entry)?,
    })
}
