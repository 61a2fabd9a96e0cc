// SPDX-License-Identifier: GPL-2.0-only
//! The words of a line behind the first, for each kind of line.

ghost use Rattle.std.specs.Prelude.{◌≡◌, ◌<◌, ◌≤◌, [], ◌∷◌, Ok, IfOk, true};
ghost use Rattle.shr_model.specs.Paths.{is_path};
ghost use Rattle.shr_words.specs.WordReading.{Gives, words_left, items_said};
ghost use Rattle.shr_words.specs.Classes.{N, L, W, policy_place, flag_place};
ghost use Rattle.shr_script.specs.Lines.{classes, verb_classes, key_classes, most_ids};
ghost use Rattle.shr_script.specs.Said.{said_state};
ghost use Rattle.shr_script.specs.declared.kind.Kind.TheVariants.{Header, Size, Group, Cache, Pool, Sweep};
ghost use Rattle.shr_script.specs.declared.kind.Verb.TheVariants.{Put, Shrink, Balance, Offline, MkGroup, Register, Isolate, Release, Grab};

use crate::said::Said;
use shr_base::objects::Policy;
use shr_base::places::Target;
use shr_base::scripts::Code;
use shr_words::word::{
    at_start, cache, cache_kind, end, group, key, limit, marked_group, name, number, path, policy,
    pool_kind, text, walk_kind,
};

/// Of `shrinkers`.
pub fn version_word(said: &Said, rest: Option<&[u8]>) -> Result<u8, Code>
    ensures { Gives (λ x. N x ∷ []) result (items_said (classes (said_state said.now) Header)
        (words_left rest.entry)) }
{
    let (version, rest) = number(rest, 1, 3)?;
    end(rest)?;
    Ok(version as u8)
}

// The most ids that a script of a version may have.
fn most_ids(version: u8) -> u32
    ensures most { result ≡ most_ids version }
    ensures within { result ≤ 256 }
{
    if version == 2 { 256 } else { 64 }
}

/// Of `size`.
pub fn size_words(said: &Said, rest: Option<&[u8]>) -> Result<(u8, u16), Code>
    ensures { Gives (λ x. N x.0 ∷ N x.1 ∷ []) result
        (items_said (classes (said_state said.now) Size) (words_left rest.entry)) }
{
    let (nodes, rest) = number(rest, 1, 5)?;
    let (ids, rest) = number(rest, 1, most_ids(said.version) + 1)?;
    end(rest)?;
    Ok((nodes as u8, ids as u16))
}

/// Of `group` and `later`.
pub fn group_words<'a>(
    said: &Said,
    later: bool,
    rest: Option<&'a [u8]>,
) -> Result<(&'a [u8], Option<u32>), Code>
    ensures reads { Gives (λ x. W x.0.now ∷ L x.1 ∷ []) result
        (items_said (classes (said_state said.now) (Group later)) (words_left rest.entry)) }
    ensures path { IfOk result (λ x. is_path x.0.now ≡ true) }
{
    let (path, rest) = path(rest)?;
    let (limit, rest) = limit(rest)?;
    end(rest)?;
    Ok((path, limit))
}

/// Of `cache`.
pub fn cache_words<'a>(
    said: &Said,
    rest: Option<&'a [u8]>,
) -> Result<(&'a [u8], Policy, u32, u32, u32, bool, bool), Code>
    ensures { Gives (λ x. W x.0.now ∷ N (policy_place x.1) ∷ N x.2 ∷ N x.3 ∷ N x.4
        ∷ N (flag_place x.5) ∷ N (flag_place x.6) ∷ []) result
        (items_said (classes (said_state said.now) Cache) (words_left rest.entry)) }
{
    let (name, rest) = name(rest)?;
    let (policy, rest) = policy(rest)?;
    let (seeks, rest) = number(rest, 0, 1_001)?;
    let (batch, rest) = number(rest, 0, 20_001)?;
    let (floor, rest) = number(rest, 0, 20_001)?;
    let (fs, rest) = cache_kind(rest)?;
    let (on, rest) = at_start(rest)?;
    end(rest)?;
    Ok((name, policy, seeks, batch, floor, fs, on))
}

/// Of `pool`.
pub fn pool_words<'a>(
    said: &Said,
    rest: Option<&'a [u8]>,
) -> Result<(&'a [u8], u32, u32, u32, bool), Code>
    ensures { Gives (λ x. W x.0.now ∷ N x.1 ∷ N x.2 ∷ N x.3 ∷ N (flag_place x.4) ∷ []) result
        (items_said (classes (said_state said.now) Pool) (words_left rest.entry)) }
{
    let (name, rest) = name(rest)?;
    let (seeks, rest) = number(rest, 0, 1_001)?;
    let (batch, rest) = number(rest, 0, 20_001)?;
    let (floor, rest) = number(rest, 0, 20_001)?;
    let (flat, rest) = pool_kind(rest)?;
    end(rest)?;
    Ok((name, seeks, batch, floor, flat))
}

/// Of `sweep`.
pub fn sweep_words(said: &Said, rest: Option<&[u8]>) -> Result<(u8, bool), Code>
    ensures { Gives (λ x. N x.0 ∷ N (flag_place x.1) ∷ []) result
        (items_said (classes (said_state said.now) Sweep) (words_left rest.entry)) }
{
    let (priority, rest) = number(rest, 0, 13)?;
    let (nofs, rest) = walk_kind(rest)?;
    end(rest)?;
    Ok((priority as u8, nofs))
}

// Where a command finds its object, by the numbers that its words said.
#[inline(always)]
fn target_of(group: u16, node: u32, cache: u16) -> Target
    requires node { node < 256 }
    requires cache { cache < 256 }
    ensures { result ≡ record { group = group; node = node; decl = cache } }
{
    Target {
        group,
        node: node as u8,
        decl: cache as u8,
    }
}

/// Of `put`.
#[inline(always)]
pub fn put_words<'a>(
    said: &Said,
    rest: Option<&'a [u8]>,
) -> Result<(Target, &'a [u8], &'a [u8]), Code>
    ensures { Gives (λ x. N x.0.group ∷ N x.0.node ∷ N x.0.decl ∷ W x.1.now ∷ W x.2.now ∷ []) result
        (items_said (verb_classes (said_state said.now) Put) (words_left rest.entry)) }
{
    let (group, rest) = group(rest, &said.groups)?;
    let (node, rest) = number(rest, 0, said.nodes as u32)?;
    let (cache, rest) = cache(rest, &said.caches)?;
    let (key, rest) = key(rest)?;
    let (value, rest) = text(rest)?;
    end(rest)?;
    Ok((target_of(group, node, cache), key, value))
}

/// Of `get`, `del`, `pin` and `unpin`.
pub fn key_words<'a>(said: &Said, rest: Option<&'a [u8]>) -> Result<(Target, &'a [u8]), Code>
    ensures { Gives (λ x. N x.0.group ∷ N x.0.node ∷ N x.0.decl ∷ W x.1.now ∷ []) result
        (items_said (key_classes (said_state said.now)) (words_left rest.entry)) }
{
    let (group, rest) = group(rest, &said.groups)?;
    let (node, rest) = number(rest, 0, said.nodes as u32)?;
    let (cache, rest) = cache(rest, &said.caches)?;
    let (key, rest) = key(rest)?;
    end(rest)?;
    Ok((target_of(group, node, cache), key))
}

/// Of `shrink`.
pub fn shrink_words(said: &Said, rest: Option<&[u8]>) -> Result<(u16, u8, u8, bool), Code>
    ensures { Gives (λ x. N x.0 ∷ N x.1 ∷ N x.2 ∷ N (flag_place x.3) ∷ []) result
        (items_said (verb_classes (said_state said.now) Shrink) (words_left rest.entry)) }
{
    let (group, rest) = group(rest, &said.groups)?;
    let (node, rest) = number(rest, 0, said.nodes as u32)?;
    let (priority, rest) = number(rest, 0, 13)?;
    let (nofs, rest) = walk_kind(rest)?;
    end(rest)?;
    Ok((group, node as u8, priority as u8, nofs))
}

/// Of `balance`.
pub fn balance_words(said: &Said, rest: Option<&[u8]>) -> Result<(u8, u8, bool), Code>
    ensures { Gives (λ x. N x.0 ∷ N x.1 ∷ N (flag_place x.2) ∷ []) result
        (items_said (verb_classes (said_state said.now) Balance) (words_left rest.entry)) }
{
    let (node, rest) = number(rest, 0, said.nodes as u32)?;
    let (priority, rest) = number(rest, 0, 13)?;
    let (nofs, rest) = walk_kind(rest)?;
    end(rest)?;
    Ok((node as u8, priority as u8, nofs))
}

/// Of `offline`.
pub fn group_word(said: &Said, rest: Option<&[u8]>) -> Result<u16, Code>
    ensures { Gives (λ x. N x ∷ []) result (items_said (verb_classes (said_state said.now) Offline)
        (words_left rest.entry)) }
{
    let (group, rest) = group(rest, &said.groups)?;
    end(rest)?;
    Ok(group)
}

/// Of `mkgroup`.
pub fn later_group_word(said: &Said, rest: Option<&[u8]>) -> Result<u16, Code>
    ensures { Gives (λ x. N x ∷ []) result (items_said (verb_classes (said_state said.now) MkGroup)
        (words_left rest.entry)) }
{
    let (group, rest) = marked_group(rest, &said.groups, said.later.as_slice())?;
    end(rest)?;
    Ok(group)
}

/// Of `isolate`.
pub fn isolate_words(said: &Said, rest: Option<&[u8]>) -> Result<(Target, u32), Code>
    ensures { Gives (λ x. N x.0.group ∷ N x.0.node ∷ N x.0.decl ∷ N x.1 ∷ []) result
        (items_said (verb_classes (said_state said.now) Isolate) (words_left rest.entry)) }
{
    let (group, rest) = group(rest, &said.groups)?;
    let (node, rest) = number(rest, 0, said.nodes as u32)?;
    let (cache, rest) = cache(rest, &said.caches)?;
    let (budget, rest) = number(rest, 0, 20_001)?;
    end(rest)?;
    Ok((target_of(group, node, cache), budget))
}

/// Of `release`.
pub fn release_words(said: &Said, rest: Option<&[u8]>) -> Result<(u8, u8, u32), Code>
    ensures { Gives (λ x. N x.0 ∷ N x.1 ∷ N x.2 ∷ []) result
        (items_said (verb_classes (said_state said.now) Release) (words_left rest.entry)) }
{
    let (node, rest) = number(rest, 0, said.nodes as u32)?;
    let (pool, rest) = cache(rest, &said.pools)?;
    let (units, rest) = number(rest, 1, 20_001)?;
    end(rest)?;
    Ok((node as u8, pool as u8, units))
}

/// Of `grab`.
pub fn grab_words(said: &Said, rest: Option<&[u8]>) -> Result<(u8, u8), Code>
    ensures { Gives (λ x. N x.0 ∷ N x.1 ∷ []) result (items_said (verb_classes (said_state said.now)
        Grab) (words_left rest.entry)) }
{
    let (node, rest) = number(rest, 0, said.nodes as u32)?;
    let (pool, rest) = cache(rest, &said.pools)?;
    end(rest)?;
    Ok((node as u8, pool as u8))
}

/// Of `register` and `unregister`.
pub fn cache_word(said: &Said, rest: Option<&[u8]>) -> Result<u8, Code>
    ensures { Gives (λ x. N x ∷ []) result (items_said (verb_classes (said_state said.now) Register)
        (words_left rest.entry)) }
{
    let (cache, rest) = cache(rest, &said.caches)?;
    end(rest)?;
    Ok(cache as u8)
}
