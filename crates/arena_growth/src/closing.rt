//! What a growth ends with: an old top is closed, and a chunk is cut from the new one.

ghost use Rattle.std.specs.Prelude.{◌≤◌, OnErr};
ghost use Rattle.chunk_tags.specs.Sizes.{IsRequestSize};
ghost use Rattle.arena_rules.specs.PlainArena.{IsSound};
ghost use Rattle.consolidate_trim.specs.Holds.{IsBacked};
ghost use Rattle.consolidate_trim.specs.Outside.{AreApart, means};
ghost use Rattle.consolidate_trim.specs.Lacks.{LacksRoom};
ghost use Rattle.arena_growth.specs.Ledgers.{stage};
ghost use Rattle.arena_growth.specs.Asking.{Closes, CutsFromGrown, FitsFound, beside_arena, chunks_in};

use crate::found::Found;
use crate::{Step, take_top};
use address_space::{Kernel, Space};
use arena_rules::{Moves, Said};
use chunk_tags::{Chunk, NoMemory, Size, Tunables};
use consolidate_trim::release;
use fast_bins::FastPort;
use mapped_chunks::Dials;
use thread_cache::Cache;

/// Releases what is left of a closed top, or what a resize parted off or left behind, where there is something.
pub fn close<M: Moves, K: Kernel, P: FastPort + Dials>(
    g: &mut M,
    rest: Option<Chunk>,
    cache: &mut Cache,
    port: &mut P,
    space: &mut Space<K>,
    t: &Tunables,
    said: &mut Vec<Said>,
) -> Result<(), NoMemory>
    requires backed { IsBacked P.fast (M.plain g.old) port.old (chunks_in rest) }
    requires apart { AreApart P.fast P.dials }
    requires fast { t.now.max_fast ≤ 160 }
    ensures closes { Closes (means P.fast P.dials K.port) t.now rest
        (stage (M.plain g.old) (beside_arena port.old cache.old space.old) said.old.items)
        result (stage (M.plain g.new) (beside_arena port.new cache.new space.new) said.new.items) }
    ensures lacks { OnErr result (LacksRoom P.fast port.new said.new) }
{
    match rest {
        Some(c) => release(g, c, cache, port, space, t, said),
        None => Ok(()),
    }
}

/// Raises the most bytes that there were, and cuts a chunk from top where that suffices (the end of glibc's `sysmalloc`).
pub fn cut_from_grown<M: Moves>(g: &mut M, nb: Size) -> Found
    requires sound { IsSound (M.plain g.old) }
    requires size { IsRequestSize nb }
    ensures cut { CutsFromGrown nb (M.plain g.old) result (M.plain g.new) }
    ensures fits { FitsFound nb result }
{
    g.note_most();
    match take_top(g, nb) {
        Step::Taken(c) => Found::InArena(c),
        Step::Onward => Found::Nowhere,
    }
}
