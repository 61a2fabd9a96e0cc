// SPDX-License-Identifier: GPL-2.0-only
//! Count words and bit words.
ghost use Rattle.std.specs.Prelude.{◌≡◌, ◌/◌, ◌*◌, ◌^◌, ◌<◌, MatchBool};
ghost use Rattle.shr_model.specs.PlaceNumbers.{place_number};
ghost use Rattle.shr_seats.specs.Rows.{row_count};
ghost use Rattle.shr_core.specs.Layout.{map_number, row_in};
ghost use Rattle.shr_seats.specs.Shapes.{sizes_of, groups_in};
ghost use Rattle.shr_core.specs.Steps.{with_count, IsCounted, with_drained, with_map, IsOfIds, with_set, with_clear};
ghost use Rattle.shr_core.specs.Seats.{IsPlaceOfShape, view_of, shape_of};

use crate::seat::Seat;
use crate::table::Core;
use crate::words::{
    IDS_A_WORD, ONE_VERSION, PLACES_A_NODE, PLACES_AN_ID, bit_word, count_word, own_bit,
};
use shr_base::places::Place;
use std::marker::Brand;

/// A count: after the first `version` entries of its journal the list had `len` objects.
///
/// Linux: `nr_items` of `struct list_lru_one` in include/linux/list_lru.h. The version is our own.
#[derive(Clone, Copy, Debug, PartialEq, Eq)]
pub struct Seen {
    pub len: u32,
    pub version: u32,
}

/// The number of a place, whatever the sizes.
pub(crate) fn number_of(place: Place) -> usize
    ensures { result ≡ place_number place }
{
    PLACES_AN_ID * place.id as usize + PLACES_A_NODE * place.node as usize + place.group as usize
}

// The place in whose row the bit of a place stands, with those of 63 other ids.
fn map_with(place: Place) -> Place
    ensures { result ≡ record { id = place.id / 64; node = place.node; group = place.group } }
{
    Place {
        id: place.id / IDS_A_WORD as u16,
        node: place.node,
        group: place.group,
    }
}

impl Core {
    /// The row of a place.
    pub(crate) fn row(&self, place: Place) -> usize
        requires { IsPlaceOfShape (shape_of self.now) place }
        ensures row { result ≡ row_in (sizes_of (shape_of self.now)) (place_number place) }
        ensures low { result < row_count (sizes_of (shape_of self.now)) }
        ensures small { result < 2 ^ 40 }
    {
        self.setting.shape.sizes().row(place)
    }
}

impl<'a> Seat<'a> {
    /// One load of the count word.
    ///
    /// Linux: `list_lru_count_one` in mm/list_lru.c, which reads `nr_items` without the lock.
    pub fn count(&mut self, place: Place) -> Seen
        requires place { IsPlaceOfShape (shape_of self.old.core) place }
        ensures loaded { self.new ≡ record self.old {
          view = with_count (view_of self.old) (place_number place)
              result.len result.version;
        } }
        ensures counted { IsCounted (shape_of self.old.core) (view_of self.old) (place_number place)
            result.len result.version }
    {
        let number = number_of(place);
        let word = count_word(self.core.row(place));
        let word = self.core.load_as::<Brand>(&mut self.token, word, number);
        Seen {
            len: (word % ONE_VERSION) as u32,
            version: (word / ONE_VERSION) as u32,
        }
    }

    /// Whether one load of the count word shows an empty list. Where the seat owns the id, no seat
    /// holds it and the lists of all higher groups are empty, nobody fills this one any more, and the
    /// node's drain mark moves over it. Nothing else is noted.
    ///
    /// Linux: `list_lru_count_one` in mm/list_lru.c, which reads `nr_items` without the lock. The
    /// mark is our own.
    pub fn finds_empty(&mut self, place: Place) -> bool
        requires place { IsPlaceOfShape (shape_of self.old.core) place }
        ensures emptied { MatchBool result (self.new ≡ record self.old {
          view = with_drained
              (view_of self.old) (place_number place);
        }) (self.new ≡ self.old) }
    {
        let number = number_of(place);
        let word = count_word(self.core.row(place));
        let word = self.core.load_as::<Brand>(&mut self.token, word, number);
        word % ONE_VERSION == 0
    }

    /// One load of the bit word of a node and group below the root, for 64 ids: bit `i` stands for
    /// id `64 * unit + i`.
    ///
    /// Linux: `map` of `struct shrinker_info_unit` in include/linux/shrinker.h. `shrink_slab_memcg`
    /// reads it anew at every bit.
    pub fn map(&mut self, node: u8, group: u16, unit: u8) -> u64
        requires place { (node < (shape_of self.old.core).nodes)
            × (group < groups_in (shape_of self.old.core)) × (64 * unit < (shape_of self.old.core).ids) }
        requires below_root { 0 < group }
        ensures loaded { self.new ≡ record self.old {
          view = with_map (view_of self.old) (map_number node group
              unit) result;
        } }
        ensures ids { IsOfIds (shape_of self.old.core).ids unit result }
    {
        let map = Place {
            id: unit as u16,
            node,
            group,
        };
        let word = bit_word(self.core.row(map));
        self.core
            .load_as::<Brand>(&mut self.token, word, number_of(map))
    }

    /// Sets the bit of a place below the root, and ends what the seat owes there.
    ///
    /// Linux: `set_shrinker_bit` in mm/shrinker.c.
    pub fn set_bit(&mut self, place: Place)
        requires place { IsPlaceOfShape (shape_of self.old.core) place }
        requires below_root { 0 < place.group }
        ensures set { self.new ≡ record self.old { view = with_set (view_of self.old) (place_number place) } }
    {
        let number = number_of(place);
        let word = bit_word(self.core.row(map_with(place)));
        let bit = 1 << own_bit(number);
        self.core.or_as::<Brand>(&mut self.token, word, bit, number);
    }

    /// Clears the bit of a place below the root. The seat owes the place until the bit is set or a
    /// count shows no object.
    ///
    /// Linux: `clear_bit` in `shrink_slab_memcg` of mm/shrinker.c.
    pub fn clear_bit(&mut self, place: Place)
        requires place { IsPlaceOfShape (shape_of self.old.core) place }
        requires below_root { 0 < place.group }
        ensures cleared { self.new ≡ record self.old { view = with_clear (view_of self.old) (place_number place) } }
    {
        let number = number_of(place);
        let word = bit_word(self.core.row(map_with(place)));
        let others = !(1 << own_bit(number));
        self.core
            .and_as::<Brand>(&mut self.token, word, others, number);
    }
}
