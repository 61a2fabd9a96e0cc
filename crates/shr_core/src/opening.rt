// SPDX-License-Identifier: GPL-2.0-only
//! A core from its start to its end.
ghost use Rattle.std.specs.Prelude.{◌≡◌, ◌≢◌, ◌%◌, ◌+◌, ◌*◌, ◌<◌, ◌≤◌, ◌^◌, [], All, IfOk, IsOk, length, true};
ghost use Rattle.shr_core.specs.Opening.{IsFreshRoom, AreFreshRooms, AreFirstWords};
ghost use Rattle.shr_core.specs.Rule.{opener, spent};
ghost use Rattle.shr_seats.specs.Shapes.{IsShape};
ghost use Rattle.shr_core.specs.Steps.{with_one_split, split_off, with_joined, IsAtRest};
ghost use Rattle.shr_seats.specs.Standing.{IsWhole};
ghost use Rattle.shr_core.specs.Ending.{IsClosedOf};
ghost use Rattle.shr_core.specs.Leaving.{IsLeft};
ghost use Rattle.shr_core.specs.Seats.{first_view, shape_of, view_of};
ghost use Rattle.shr_core.specs.Seating.{IsFirstOf};

use crate::ending::{read_lookups, read_maps, take_ends, used_places};
use crate::seat::{FirstSeat, InHand, Seat};
use crate::setting::Setting;
use crate::slot::Slot;
use crate::table::Core;
use crate::view::View;
use crate::words::{KINDS, ONE_LOOKUP, is_lookup};
use atomic_table::{Join, Refused, Split, Table};
use shr_base::ends::Closed;
use shr_base::memory::Memory;
use shr_list::list::List;
use shr_seats::shape::Shape;
use std::alloc::Global;

/// How the first seat is split, and how another is joined into it.
pub struct Parting;

impl Split<View> for Parting {
    ghost left = { with_one_split };

    ghost right = { split_off };
}

impl Join<View> for Parting {
    ghost both = { with_joined };

    ghost spent = { spent };
}

// A room with an empty list.
fn fresh(alloc: Global, most_items: u32, most_entries: u32) -> Slot
    requires { (most_items ≤ 2 ^ 20) × (most_entries ≤ 2 ^ 31) }
    ensures { IsFreshRoom most_items most_entries result }
{
    Slot::of_list(alloc, List::new(alloc, most_items, most_entries))
}

// So many rooms, each with an empty list.
fn fresh_rooms(
    alloc: Global,
    count: usize,
    most_items: u32,
    most_entries: u32,
) -> Result<Vec<Slot>, Memory>
    requires { (most_items ≤ 2 ^ 20) × (most_entries ≤ 2 ^ 31) }
    ensures { IfOk result (λ v. (length v.items ≡ count) × AreFreshRooms most_items most_entries
        v.items) }
{
    let mut rooms = Vec::with_capacity(alloc, count)?;
    for _ in 0..count {
        rooms.push(fresh(alloc, most_items, most_entries))?;
    }
    Ok(rooms)
}

// What a word is at the start.
fn word_at(i: usize, first: u32) -> u64
    ensures look { i % 8 ≡ 3 → result ≡ first * 256 }
    ensures other { i % 8 ≢ 3 → result ≡ 0 }
{
    if is_lookup(i) {
        first as u64 * ONE_LOOKUP
    } else {
        0
    }
}

// So many words, of which each fourth is a lookup word.
fn first_words(alloc: Global, count: usize, first: u32) -> Result<Vec<u64>, Memory>
    ensures { IfOk result (λ v. (length v.items ≡ count) × AreFirstWords first v.items) }
{
    let mut words = Vec::with_capacity(alloc, count)?;
    for i in 0..count {
        words.push(word_at(i, first))?;
    }
    Ok(words)
}

impl Core {
    /// A core with all ids idle, all lists empty, bits and counts 0, and its first seat. On
    /// `Memory` nothing is kept.
    ///
    /// Linux: `alloc_shrinker_info` in mm/shrinker.c for each group, and `__list_lru_init` in
    /// mm/list_lru.c for each id.
    pub fn new(alloc: Global, shape: Shape, first_lookup: u32) -> Result<(Core, FirstSeat), Memory>
        requires shape { IsShape shape }
        ensures setting { IfOk result (λ t. t.0.setting
            ≡ record { shape = shape; first_lookup = first_lookup }) }
        ensures first { IfOk result (λ t. IsFirstOf t.0 t.1) }
        ensures view { IfOk result (λ t. first_view t.1 ≡ opener) }
    {
        let rooms = shape.sizes().rows() + 1;
        let words = first_words(alloc, KINDS * rooms, first_lookup)?;
        let slots = fresh_rooms(alloc, rooms, shape.most_items, shape.most_entries)?;
        let setting = Setting {
            shape,
            first_lookup,
        };
        match Table::new(alloc, &words, slots, &setting) {
            Ok((table, token)) => Ok((
                Core {
                    table,
                    setting,
                    alloc,
                },
                FirstSeat { token, held: None },
            )),
            Err(Refused { slots: _ }) => Err(Memory),
        }
    }

    /// The sizes that the core was made with.
    pub fn shape(&self) -> &Shape
        ensures { result.now ≡ shape_of self.now }
    {
        &self.setting.shape
    }

    /// Ends the core, and gives what is left of it. By then all other seats were joined. On
    /// `Memory` the core is gone too.
    pub fn finish(self, first: FirstSeat) -> Result<Closed, Memory>
        requires first { IsFirstOf self first }
        requires whole { IsWhole (first_view first).standing }
        ensures closed { IfOk result (λ closed. IsClosedOf self.setting first.token.id
            (first_view first) closed) }
        ensures left { IfOk result (λ closed. IsLeft self.setting (first_view first) closed) }
        ensures words { IfOk result (λ closed. All (λ m. m.bits < 2 ^ 64) closed.maps.items) }
    {
        let Core {
            table,
            setting,
            alloc,
        } = self;
        let FirstSeat { token, held: _ } = first;
        let shape = &setting.shape;
        let ids = shape.ids as usize;
        let mut ended = table.close_with(token);
        let sizes = shape.sizes();
        let units = ((ids + 63) / 64) as u8;
        let maps = read_maps(alloc, &ended, sizes, units);
        let lookups = read_lookups(alloc, &ended, shape.ids);
        let used = used_places(&ended, sizes);
        let places = take_ends(alloc, &mut ended, sizes, used);
        let pool = ended.take(sizes.rows()).into_pool();
        ended.free();
        Ok(Closed {
            pool,
            places: places?,
            maps: maps?,
            lookups: lookups?,
        })
    }
}

impl<'a> Seat<'a> {
    /// One seat more. It knows the pool's entries that the first seat knows. It takes no memory
    /// today.
    pub fn split(&mut self) -> Result<Seat<'a>, Memory>
        requires first { (view_of self.old).standing.first ≡ true }
        requires few { (view_of self.old).standing.splits < 64 }
        ensures made { IsOk result }
        ensures split { self.new ≡ record self.old { view = with_one_split (view_of self.old) } }
        ensures other { IfOk result (λ other. other
            ≡ record self.old { view = split_off (view_of self.old) }) }
    {
        let core = self.core;
        let token = core.table.shared.split_seat::<Parting>(&mut self.token);
        Ok(Seat {
            core,
            token,
            held: None,
            rooms: InHand::Nothing,
            met: None,
        })
    }

    /// Joins another seat of the core into the first, which takes over what that one has made and
    /// seen. The other one is at rest.
    pub fn join(&mut self, other: Seat<'a>)
        requires first { (view_of self.old).standing.first ≡ true }
        requires table { other.core ≡ self.old.core }
        requires rest { IsAtRest (view_of other) }
        ensures joined { self.new ≡ record self.old {
          view = with_joined (view_of self.old)
              (view_of other.entry);
        } }
    {
        let Seat {
            core: _,
            token,
            held: _,
            rooms: _,
            met: _,
        } = other;
        let shared = &self.core.table.shared;
        shared.join_seat::<Parting>(&mut self.token, token);
    }
}
