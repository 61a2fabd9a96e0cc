// SPDX-License-Identifier: GPL-2.0-only
//! Laws of the tree of groups, as the clauses of functions that do nothing.

ghost use Rattle.std.specs.Prelude.{◌≡◌, ◌<◌, ◌≤◌, ℕ, List, [], ◌∷◌, length};
ghost use Rattle.shr_model.specs.Trees.{IsTree};
ghost use Rattle.shr_model.specs.Groups.{IsAtOrAbove, parent_of, path_of};

/// At or above is a partial order, in which the root is above all.
///
/// Linux: `mem_cgroup_is_descendant` in include/linux/memcontrol.h.
pub fn at_or_above_is_an_order()
    ensures reflexive { (parents : List ℕ) → IsTree parents
        → (g : ℕ) → g < length parents → IsAtOrAbove parents g g }
    ensures transitive { (parents : List ℕ) → IsTree parents
        → (h g b : ℕ) → b < length parents → IsAtOrAbove parents h g → IsAtOrAbove parents g b
        → IsAtOrAbove parents h b }
    ensures antisymmetric { (parents : List ℕ) → IsTree parents
        → (g b : ℕ) → g < length parents → b < length parents
        → IsAtOrAbove parents g b → IsAtOrAbove parents b g → g ≡ b }
    ensures root { (parents : List ℕ) → IsTree parents
        → (b : ℕ) → b < length parents → IsAtOrAbove parents 0 b }
{}

/// What is at or above a group has no higher number, and a parent has a lower one.
pub fn numbers_rise_downwards()
    ensures above { (parents : List ℕ) → IsTree parents
        → (g b : ℕ) → b < length parents → IsAtOrAbove parents g b → g ≤ b }
    ensures parent { (parents : List ℕ) → IsTree parents
        → (b : ℕ) → 0 < b → b < length parents → parent_of parents b < b }
{}

/// The path of a group is the group and then the path of its parent, so each end of a path is a
/// path.
pub fn paths_go_up()
    ensures root { (parents : List ℕ) → path_of parents 0 ≡ 0 ∷ [] }
    ensures below { (parents : List ℕ) → IsTree parents
        → (b : ℕ) → 0 < b → b < length parents
        → path_of parents b ≡ b ∷ path_of parents (parent_of parents b) }
{}
