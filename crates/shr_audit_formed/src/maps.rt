// SPDX-License-Identifier: GPL-2.0-only
//! Whether each word of bits of a report stands where it must.

ghost use Rattle.std.specs.Prelude.{◌≡◌, [], ◌∷◌, ◌++◌, IfSome, IfNone};
ghost use Rattle.std.specs.Bool.{Decides};
ghost use Rattle.std.specs.List.{range_with_len};
ghost use Rattle.shr_laws.specs.WellFormed.{bit_places};
ghost use Rattle.shr_audit_formed.specs.Stripped.{IsNotStripped, at_unit, unit_places, group_places, wheres};

use shr_base::ends::MapEnd;

// The words behind the first, if that is of this node, group and unit.
fn strip_unit(maps: &[MapEnd], node: u8, group: usize, unit: usize) -> Option<&[MapEnd]>
    ensures some { IfSome result (λ rest. wheres maps.now ≡ at_unit node group unit
        ∷ wheres rest.now) }
    ensures none { IfNone result (IsNotStripped (at_unit node group unit ∷ []) (wheres maps.now)) }
{
    let [first, rest @ ..] = maps else {
        return None;
    };
    if first.node == node && first.group as usize == group && first.unit as usize == unit {
        Some(rest)
    } else {
        None
    }
}

// The words behind those of a node and group, in the order of their units.
fn strip_units(maps: &[MapEnd], node: u8, group: usize, units: usize) -> Option<&[MapEnd]>
    ensures some { IfSome result (λ rest. wheres maps.now ≡ unit_places node group units
        ++ wheres rest.now) }
    ensures none { IfNone result (IsNotStripped (unit_places node group units) (wheres maps.now)) }
{
    let mut rest = maps;
    for unit in 0..units {
        let Some(more) = strip_unit(rest, node, group, unit) else {
            return None;
        };
        rest = more;
    }
    Some(rest)
}

// The words behind those of a node, in the order of its groups from 1 on.
fn strip_groups(maps: &[MapEnd], node: u8, groups: usize, units: usize) -> Option<&[MapEnd]>
    ensures some { IfSome result (λ rest. wheres maps.now ≡ group_places node groups units
        ++ wheres rest.now) }
    ensures none { IfNone result (IsNotStripped (group_places node groups units)
        (wheres maps.now)) }
{
    let mut rest = maps;
    for k in 0..groups.saturating_sub(1) {
        let Some(more) = strip_units(rest, node, 1 + k, units) else {
            return None;
        };
        rest = more;
    }
    Some(rest)
}

// The words behind those of all nodes, in their order.
fn strip_nodes(maps: &[MapEnd], nodes: u8, groups: usize, units: usize) -> Option<&[MapEnd]>
    ensures some { IfSome result (λ rest. wheres maps.now
        ≡ bit_places nodes groups (range_with_len 0 units) ++ wheres rest.now) }
    ensures none { IfNone result (IsNotStripped (bit_places nodes groups (range_with_len 0 units))
        (wheres maps.now)) }
{
    let mut rest = maps;
    for node in 0..nodes {
        let Some(more) = strip_groups(rest, node, groups, units) else {
            return None;
        };
        rest = more;
    }
    Some(rest)
}

/// Whether the words of bits are those of each node, each group from 1 on, and so many units, in this
/// order.
pub fn maps_stand(maps: &[MapEnd], nodes: u8, groups: usize, units: usize) -> bool
    ensures { Decides result (wheres maps.now ≡ bit_places nodes groups (range_with_len 0 units)) }
{
    match strip_nodes(maps, nodes, groups, units) {
        Some(rest) => rest.is_empty(),
        None => false,
    }
}
