//! A chunk is given up under its arena's lock.

ghost use Rattle.std.specs.Prelude.{◌≡◌, ◌≤◌, IsTrue, OnErr};
ghost use Rattle.arena_rules.specs.PlainArena.{IsSound};
ghost use Rattle.arena_rules.specs.Release.{settled, given, released, consolidated_if, trimmed_by_threshold};
ghost use Rattle.arena_rules.specs.Rules.{block_of};
ghost use Rattle.chunk_tags.specs.Sizes.{IsChunkSize};
ghost use Rattle.thread_cache.specs.Caches.{CacheValue, has_room, with_newest};
ghost use Rattle.consolidate_trim.specs.FastHolds.{Empties, fast_hold};
ghost use Rattle.consolidate_trim.specs.Holds.{GivesUp, IsBacked, hold, no_chunk, one_chunk};
ghost use Rattle.consolidate_trim.specs.Lacks.{IsFull, LacksRoom};
ghost use Rattle.consolidate_trim.specs.Merges.{merging_of};
ghost use Rattle.consolidate_trim.specs.Outside.{AreApart, means};

use crate::answers::{make_room, tell};
use crate::consolidating::consolidate;
use crate::merging::{Merged, merge};
use crate::trimming::{trim_heap, trim_main};
use address_space::{Kernel, Space};
use arena_rules::{Moves, Said};
use chunk_tags::{Block, Chunk, NoMemory, Tunables, fast_index};
use fast_bins::FastPort;
use mapped_chunks::Dials;
use thread_cache::Cache;

/// From this size on, top included, a merged chunk brings consolidation and trimming (glibc's
/// `FASTBIN_CONSOLIDATION_THRESHOLD`).
const SETTLING_SIZE: u64 = 65_536;

fn consolidate_if<M: Moves, P: FastPort>(
    flag: bool,
    g: &mut M,
    port: &mut P,
    said: &mut Vec<Said>,
) -> Result<(), NoMemory>
    requires { IsBacked P.fast (M.plain g.old) port.old no_chunk }
    ensures empties { let before = fast_hold (M.plain g.old) port.old said.old.items in
        let after = fast_hold (M.plain g.new) port.new said.new.items in
        Empties P.fast (consolidated_if flag before.arena) before result after }
    ensures lacks { OnErr result (IsFull said.new) }
{
    if flag {
        consolidate(g, port, said)
    } else {
        Ok(())
    }
}

/// Reads the trim threshold, and trims by it.
fn trim_by_threshold<M: Moves, K: Kernel, P: FastPort + Dials>(
    g: &mut M,
    port: &mut P,
    space: &mut Space<K>,
    t: &Tunables,
    said: &mut Vec<Said>,
) -> Result<(), NoMemory>
    requires sound { IsSound (M.plain g.old) }
    requires apart { AreApart P.fast P.dials }
    ensures gives { (cache : CacheValue) →
        let before = hold (M.plain g.old) port.old cache space.old said.old.items in
        let after = hold (M.plain g.new) port.new cache space.new said.new.items in
        GivesUp (means P.fast P.dials K.port) t.now (trimmed_by_threshold t.now before.arena)
        no_chunk before result after }
    ensures lacks { OnErr result (IsFull said.new) }
{
    make_room(said)?;
    let threshold = port.trim_threshold();
    tell(said, &Said::Dial(threshold));
    if g.number() == 0 {
        trim_main(g, threshold, space, t);
    } else {
        trim_heap(g, threshold, space, t);
    }
    Ok(())
}

/// What follows a merge: nothing for a small one; else the fast bins are consolidated where chunks may be in them, and
/// top is trimmed by the threshold that is read then (in glibc's `_int_free`).
pub fn settle<M: Moves, K: Kernel, P: FastPort + Dials>(
    g: &mut M,
    merged: Merged,
    port: &mut P,
    space: &mut Space<K>,
    t: &Tunables,
    said: &mut Vec<Said>,
) -> Result<(), NoMemory>
    requires backed { IsBacked P.fast (M.plain g.old) port.old no_chunk }
    requires apart { AreApart P.fast P.dials }
    ensures gives { (cache : CacheValue) →
        let before = hold (M.plain g.old) port.old cache space.old said.old.items in
        let after = hold (M.plain g.new) port.new cache space.new said.new.items in
        GivesUp (means P.fast P.dials K.port) t.now (settled t.now (merging_of merged before.arena))
        no_chunk before result after }
    ensures lacks { OnErr result (IsFull said.new) }
{
    if merged.size().0 < SETTLING_SIZE {
        return Ok(());
    }
    make_room(said)?;
    let flag = port.flag();
    tell(said, &Said::Flag(flag));
    consolidate_if(flag, g, port, said)?;
    trim_by_threshold(g, port, space, t, said)
}

/// Gives a chunk to its arena: it is merged, and what follows (the part of glibc's `_int_free` under the lock). Where
/// memory is short, the chunk is merged already.
pub fn give<M: Moves, K: Kernel, P: FastPort + Dials>(
    g: &mut M,
    c: Chunk,
    port: &mut P,
    space: &mut Space<K>,
    t: &Tunables,
    said: &mut Vec<Said>,
) -> Result<(), NoMemory>
    requires backed { IsBacked P.fast (M.plain g.old) port.old (one_chunk c) }
    requires apart { AreApart P.fast P.dials }
    ensures gives { (cache : CacheValue) →
        let before = hold (M.plain g.old) port.old cache space.old said.old.items in
        let after = hold (M.plain g.new) port.new cache space.new said.new.items in
        GivesUp (means P.fast P.dials K.port) t.now (given t.now before.arena c)
        (one_chunk c) before result after }
    ensures lacks { OnErr result (IsFull said.new) }
{
    let merged = merge(g, c);
    settle(g, merged, port, space, t, said)
}

/// Gives up a chunk under the lock: to the caller's cache where that has room, else into its fast bin where it is fast,
/// else to its arena (glibc's `_int_free`).
pub fn release<M: Moves, K: Kernel, P: FastPort + Dials>(
    g: &mut M,
    c: Chunk,
    cache: &mut Cache,
    port: &mut P,
    space: &mut Space<K>,
    t: &Tunables,
    said: &mut Vec<Said>,
) -> Result<(), NoMemory>
    requires backed { IsBacked P.fast (M.plain g.old) port.old (one_chunk c) }
    requires apart { AreApart P.fast P.dials }
    requires fast { t.now.max_fast ≤ 160 }
    ensures gives { let before = hold (M.plain g.old) port.old cache.old space.old said.old.items in
        let after = hold (M.plain g.new) port.new cache.new space.new said.new.items in
        GivesUp (means P.fast P.dials K.port) t.now (released t.now before.arena c)
        (one_chunk c) before result after }
    ensures lacks { OnErr result (LacksRoom P.fast port.new said.new) }
{
    make_room(said)?;
    port.make_room()?;
    let room = cache.has_room(c.size);
    tell(said, &Said::Room(room));
    if room {
        stash(g.number(), c, cache);
        return Ok(());
    }
    if c.size.0 <= t.max_fast {
        port.push(fast_index(c.size), c.at);
        return Ok(());
    }
    give(g, c, port, space, t, said)
}

/// Puts a chunk of an arena into a cache that has room for it.
pub fn stash(number: u8, c: Chunk, cache: &mut Cache)
    requires chunk { IsChunkSize c.size }
    requires room { IsTrue (has_room cache.old c.size) }
    ensures { cache.new ≡ with_newest cache.old (block_of number c) }
{
    let block = Block {
        addr: c.at,
        size: c.size,
        lead: 0,
        arena: Some(number),
    };
    cache.put(block).unwrap();
}
