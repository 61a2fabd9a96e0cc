// SPDX-License-Identifier: GPL-2.0-only
//! What a core leaves when it is finished.
ghost use Rattle.std.specs.Prelude.{◌≡◌, ℕ, ◌+◌, ◌*◌, ◌<◌, ◌≤◌, ◌++◌, ◌==◌, if◌then◌else◌, [], map, false, true, IfOk, OnOk, slice_index_or};
ghost use Rattle.std.specs.Mem.Slots.{slots_items, slots_filled, slots_len, IsFull};
ghost use Rattle.std.specs.Mem.Slots.Ownership.{Filled};
ghost use Rattle.shr_seats.specs.Rows.{row_count};
ghost use Rattle.shr_model.specs.PlaceNumbers.{place_number};
ghost use Rattle.shr_core.specs.Layout.{places_in, bits_in, looks_in, words_in};
ghost use Rattle.shr_core.specs.Ending.{AreNarrow, end_value, place_ends, ends_below, lookups_below, units_below, groups_below, nodes_below, entries_in, items_in};

use crate::lookups::unpack;
use crate::slot::Slot;
use crate::words::{bit_word, count_word, lookup_word};
use atomic_table::Closed as Ended;
use shr_base::ends::{MapEnd, PlaceEnd};
use shr_base::log::Log;
use shr_base::memory::Memory;
use shr_base::places::Place;
use shr_seats::rows::Sizes;
use std::alloc::Global;

// One place more, if it has a journal.
#[tactic(auto, using(crate::proofs::Left::place_back))]
fn add_end(ends: &mut Log<PlaceEnd>, place: Place, slot: Slot) -> Result<(), Memory>
    requires { (place.node < 4) × (place.group < 256) }
    ensures { OnOk result (map end_value ends.new.items ≡ map end_value ends.old.items ++ place_ends
        (place_number place) slot.list.entries slot.list.items) }
{
    let list = slot.into_list();
    if list.entries().len() == 0 {
        return Ok(());
    }
    let (entries, items) = list.into_parts();
    ends.add(PlaceEnd {
        place,
        entries,
        items,
    })
}

/// How many places have a journal, by their count words.
pub(crate) fn used_places(ended: &Ended<Slot, Global>, sizes: Sizes) -> usize
    requires { (slots_len ended.now.words ≡ words_in sizes) × IsFull ended.now.words }
    ensures { result ≤ row_count sizes }
{
    let mut used = 0;
    for row in 0..sizes.rows() {
        if ended.word(count_word(row)) > 0 {
            used += 1;
        }
    }
    used
}

/// Empties the rooms of all places, and gives what the places had, in a list that begins with room for
/// so many. Once memory has run out, the rooms after that are emptied too.
pub(crate) fn take_ends(
    alloc: Global,
    ended: &mut Ended<Slot, Global>,
    sizes: Sizes,
    likely: usize,
) -> Result<Log<PlaceEnd>, Memory>
    requires some { (0 < sizes.nodes) × (0 < sizes.groups) }
    requires few { (sizes.nodes ≤ 4) × (sizes.groups ≤ 256) }
    requires rooms { row_count sizes ≤ slots_len ended.old.slots }
    requires full { Filled (slots_filled ended.old.slots) 0 (slots_len ended.old.slots) }
    ensures same { (slots_items ended.new.slots ≡ slots_items ended.old.slots)
        × (slots_len ended.new.slots ≡ slots_len ended.old.slots)
        × (ended.new.words ≡ ended.old.words) }
    ensures left { Filled (slots_filled ended.new.slots) (row_count sizes)
        (slots_len ended.new.slots) }
    ensures taken { (k : ℕ) → k < row_count sizes
        → slice_index_or (slots_filled ended.new.slots) k false ≡ false }
    ensures ends { IfOk result (λ ends. map end_value ends.items ≡ ends_below (places_in sizes.ids)
        (entries_in sizes (slots_items ended.old.slots))
        (items_in sizes (slots_items ended.old.slots))) }
{
    let mut ends = Log::new(alloc);
    let mut whole = ends.reserve_exact(likely).is_ok();
    for row in 0..sizes.rows() {
        let slot = ended.take(row);
        whole = add_where(&mut ends, sizes.place(row), slot, whole);
    }
    if whole { Ok(ends) } else { Err(Memory) }
}

// One place more, if none before it was lost.
fn add_where(ends: &mut Log<PlaceEnd>, place: Place, slot: Slot, whole: bool) -> bool
    requires { (place.node < 4) × (place.group < 256) }
    ensures whole { result ≡ true → whole ≡ true }
    ensures added { result ≡ true → map end_value ends.new.items ≡ map end_value ends.old.items
        ++ place_ends (place_number place) slot.list.entries slot.list.items }
{
    whole && add_end(ends, place, slot).is_ok()
}

/// The number of lookups of each id.
pub(crate) fn read_lookups(
    alloc: Global,
    ended: &Ended<Slot, Global>,
    ids: u16,
) -> Result<Log<u32>, Memory>
    requires { (8 * ids ≤ slots_len ended.now.words) × IsFull ended.now.words }
    ensures { IfOk result (λ log. log.items ≡ lookups_below ids
        (looks_in (slots_items ended.now.words))) }
{
    let mut log = Log::new(alloc);
    for id in 0..ids {
        let word = ended.word(lookup_word(id));
        log.add(unpack(word).lookups)?;
    }
    Ok(log)
}

// The bit words of a node and group.
fn add_units(
    maps: &mut Log<MapEnd>,
    ended: &Ended<Slot, Global>,
    sizes: Sizes,
    node: u8,
    group: u16,
    units: u8,
) -> Result<(), Memory>
    requires words { (slots_len ended.now.words ≡ words_in sizes) × IsFull ended.now.words }
    requires place { (node < sizes.nodes) × (group < sizes.groups) × (units ≤ sizes.ids) }
    requires few { (sizes.nodes ≤ 4) × (sizes.groups ≤ 256) }
    ensures added { OnOk result (maps.new.items ≡ maps.old.items ++ units_below units node group
        (bits_in sizes (slots_items ended.now.words))) }
    ensures narrow { AreNarrow maps.old.items → OnOk result (AreNarrow maps.new.items) }
{
    for unit in 0..units {
        let map = Place {
            id: unit as u16,
            node,
            group,
        };
        maps.add(MapEnd {
            node,
            group,
            unit,
            bits: ended.word(bit_word(sizes.row(map))),
        })?;
    }
    Ok(())
}

// The bit words of a node and group, but for the root, which has none.
fn add_group(
    maps: &mut Log<MapEnd>,
    ended: &Ended<Slot, Global>,
    sizes: Sizes,
    node: u8,
    group: u16,
    units: u8,
) -> Result<(), Memory>
    requires words { (slots_len ended.now.words ≡ words_in sizes) × IsFull ended.now.words }
    requires place { (node < sizes.nodes) × (group < sizes.groups) × (units ≤ sizes.ids) }
    requires few { (sizes.nodes ≤ 4) × (sizes.groups ≤ 256) }
    ensures added { OnOk result (maps.new.items ≡ maps.old.items ++ (if group == 0 then [] else
        units_below units node group (bits_in sizes (slots_items ended.now.words)))) }
    ensures narrow { AreNarrow maps.old.items → OnOk result (AreNarrow maps.new.items) }
{
    if group == 0 {
        return Ok(());
    }
    add_units(maps, ended, sizes, node, group, units)
}

// The bit words of a node.
fn add_groups(
    maps: &mut Log<MapEnd>,
    ended: &Ended<Slot, Global>,
    sizes: Sizes,
    node: u8,
    units: u8,
) -> Result<(), Memory>
    requires words { (slots_len ended.now.words ≡ words_in sizes) × IsFull ended.now.words }
    requires place { (node < sizes.nodes) × (units ≤ sizes.ids) }
    requires few { (sizes.nodes ≤ 4) × (sizes.groups ≤ 256) }
    ensures added { OnOk result (maps.new.items ≡ maps.old.items
        ++ groups_below units sizes.groups node
        (bits_in sizes (slots_items ended.now.words))) }
    ensures narrow { AreNarrow maps.old.items → OnOk result (AreNarrow maps.new.items) }
{
    for group in 0..sizes.groups {
        add_group(maps, ended, sizes, node, group, units)?;
    }
    Ok(())
}

/// The bit words of all nodes and of all groups below the root.
pub(crate) fn read_maps(
    alloc: Global,
    ended: &Ended<Slot, Global>,
    sizes: Sizes,
    units: u8,
) -> Result<Log<MapEnd>, Memory>
    requires words { (slots_len ended.now.words ≡ words_in sizes) × IsFull ended.now.words }
    requires few { (sizes.nodes ≤ 4) × (sizes.groups ≤ 256) × (units ≤ sizes.ids) }
    ensures added { IfOk result (λ maps. maps.items ≡ nodes_below units sizes.groups sizes.nodes
        (bits_in sizes (slots_items ended.now.words))) }
    ensures narrow { IfOk result (λ maps. AreNarrow maps.items) }
{
    let mut maps = Log::new(alloc);
    for node in 0..sizes.nodes {
        add_groups(&mut maps, ended, sizes, node, units)?;
    }
    Ok(maps)
}
