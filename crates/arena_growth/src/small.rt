//! A small size is taken from its own bin.

ghost use Rattle.std.specs.Prelude.{IsTrue, IfOk, OnErr};
ghost use Rattle.chunk_tags.specs.Sizes.{IsChunkSize, is_small_size};
ghost use Rattle.arena_rules.specs.PlainArena.{IsSound};
ghost use Rattle.arena_rules.specs.Search.{small_taken};
ghost use Rattle.consolidate_trim.specs.Lacks.{IsFull};
ghost use Rattle.arena_growth.specs.Ledgers.{shelf, stage};
ghost use Rattle.arena_growth.specs.Steps.{Steps, StashesSmall, FitsStep};

use crate::room::{ask_room, stash_free};
use crate::step::Step;
use arena_rules::{Moves, Said};
use chunk_tags::{NoMemory, Size, is_small};
use thread_cache::Cache;

/// Further chunks of a small bin, those that have been there longest, go to the cache while that has room.
fn stash_small<M: Moves>(
    g: &mut M,
    nb: Size,
    cache: &mut Cache,
    said: &mut Vec<Said>,
) -> Result<(), NoMemory>
    requires sound { IsSound (M.plain g.old) }
    requires chunk { IsChunkSize nb }
    requires small { IsTrue (is_small_size nb) }
    ensures stashes { StashesSmall nb (stage (M.plain g.old) cache.old said.old.items)
        result (stage (M.plain g.new) cache.new said.new.items) }
    ensures lacks { OnErr result (IsFull said.new) }
{
    'stashing: while ask_room(cache, nb, said)? {
        match g.oldest_small(nb) {
            Some(c) => stash_free(g, &c, cache),
            None => break 'stashing,
        }
    }
    Ok(())
}

/// The chunk that has been in the bin of a small size longest; further ones go to the cache (in glibc's `_int_malloc`).
pub fn take_small<M: Moves>(
    g: &mut M,
    nb: Size,
    cache: &mut Cache,
    said: &mut Vec<Said>,
) -> Result<Step, NoMemory>
    requires sound { IsSound (M.plain g.old) }
    requires chunk { IsChunkSize nb }
    ensures steps { Steps shelf (small_taken nb (M.plain g.old))
        (stage (M.plain g.old) cache.old said.old.items)
        result (stage (M.plain g.new) cache.new said.new.items) }
    ensures fits { IfOk result (FitsStep nb) }
    ensures lacks { OnErr result (IsFull said.new) }
{
    if !is_small(nb) {
        return Ok(Step::Onward);
    }
    match &g.oldest_small(nb) {
        Some(first) => {
            g.claim(*first);
            stash_small(g, nb, cache, said)?;
            Ok(Step::Taken(*first))
        }
        None => Ok(Step::Onward),
    }
}
