// SPDX-License-Identifier: GPL-2.0-only
//! What one atomic step tells its caller.

ghost use Rattle.std.specs.Prelude.{ℕ};
ghost use Rattle.atomic_table.specs.Table.{Me};

use atomic_table::Play;
use std::marker::{Brand, PhantomData};

/// What a step tells, of the number that it found and of the seat after it. Each call says it in
/// its own words, as the ghost member of `Brand` in that call.
pub trait Tells<S, V> {
    ghost tells: { ℕ → Me S V → Type 0 };
}

impl<S, V> Tells<S, V> for Brand {
    ghost tells = { λ _ _. Unit {0} };
}

/// The step that tells what `T` says.
pub struct Told<T>(PhantomData<T>);

impl<S, V, T: Tells<S, V>> Play<S, V> for Told<T> {
    ghost then = { λ st m r n. T.tells r n };
}
