// SPDX-License-Identifier: GPL-2.0-only
//! What a core is made with.

use shr_seats::shape::Shape;

/// The shape of a core, and the number of each id's first lookup.
#[derive(Drop)]
pub struct Setting {
    pub shape: Shape,
    pub first_lookup: u32,
}
