// SPDX-License-Identifier: GPL-2.0-only
//! The callers at known values.

use crate::bounded::{Added, Cache};
use crate::spares::{Spares, squeeze};
use shr_arith::passes::Pass;
use shr_base::text::Text;
use shr_list::answers::LookAnswer;
use std::alloc::Global;
use std::test::Fail;

const KEYS: [&[u8]; 3] = [b"a", b"b", b"c"];

// Adds an object of this key.
fn add(alloc: Global, cache: &mut Cache, key: &[u8]) -> Result<Added, Fail> {
    Ok(cache.add(Text::of(alloc, key)?, Text::of(alloc, b"v")?))
}

// Whether an object of this key is there, which marks it.
fn has(alloc: Global, cache: &mut Cache, key: &[u8]) -> Result<bool, Fail> {
    let key = Text::of(alloc, key)?;
    match cache.look(&key) {
        LookAnswer::Hit { .. } => Ok(true),
        _ => Ok(false),
    }
}

#[test]
fn the_oldest_goes_and_a_look_spares_once(rt: HostRuntime) -> Result<(), Fail> {
    let mut cache = Cache::new(rt.alloc(), 2);
    for key in KEYS {
        let added = add(rt.alloc(), &mut cache, key)?;
        assert_eq!(rt; added, Added::Done);
    }
    let again = add(rt.alloc(), &mut cache, b"c")?;
    let first = has(rt.alloc(), &mut cache, b"a")?;
    let last = has(rt.alloc(), &mut cache, b"c")?;
    let freed = cache.trim(2);
    assert_eq!(rt;
        (again, first, last, freed),
        (Added::Exists, false, true, Some(0))
    );
    Ok(())
}

// What a first pass over this many empty buffers did.
fn squeezed(alloc: Global, buffers: u32) -> Result<Option<Pass>, Fail> {
    let mut kept = Vec::new(alloc);
    for _turn in 0..buffers {
        kept.push(Vec::new(alloc))?;
    }
    let Some(mut spares) = Spares::of(kept) else {
        return Ok(None);
    };
    Ok(squeeze(&mut spares, 0))
}

#[test]
fn a_mild_pass_frees_a_batch(rt: HostRuntime) -> Result<(), Fail> {
    let pass = Pass {
        len: 300,
        calls: 1,
        asked: 128,
        freed: 128,
        next: 22,
        stopped: false,
    };
    let squeezed = squeezed(rt.alloc(), 300)?;
    assert_eq!(rt; squeezed, Some(pass));
    Ok(())
}
