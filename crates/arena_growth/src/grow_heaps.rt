//! The heaps of another arena grow.

ghost use Rattle.std.specs.Prelude.{◌≡◌, false, IfOk, OnErr};
ghost use Rattle.chunk_tags.specs.Sizes.{IsRequestSize};
ghost use Rattle.arena_rules.specs.PlainArena.{is_main};
ghost use Rattle.arena_rules.specs.Growth.{has_top_for, grown_again, maps_else, other_grown};
ghost use Rattle.consolidate_trim.specs.Outside.{AreApart, means};
ghost use Rattle.arena_growth.specs.Ledgers.{stage};
ghost use Rattle.arena_growth.specs.Asking.{IsSearchable, IsReady, AllowsMaps, GrowsHeaps, Finds, FitsFound, beside_arena};
ghost use Rattle.arena_growth.specs.Lacks.{Lacks, word_room};

use crate::closing::{close, cut_from_grown};
use crate::found::Found;
use crate::heap_asks::{ask_extension, ask_heap, extension_for, heap_for};
use crate::mapping::ask_mapping;
use address_space::{Kernel, Space};
use arena_rules::{Moves, Said};
use chunk_tags::{NoMemory, Size, Tunables};
use fast_bins::FastPort;
use mapped_chunks::Dials;
use thread_cache::Cache;

/// Extends the last heap so far that top suffices, else adds one. `false` is the refusal of both (glibc's `sysmalloc` with
/// `grow_heap` and `new_heap`).
fn grow_heaps<M: Moves, K: Kernel, P: FastPort + Dials>(
    g: &mut M,
    nb: Size,
    cache: &mut Cache,
    port: &mut P,
    space: &mut Space<K>,
    t: &Tunables,
    said: &mut Vec<Said>,
) -> Result<bool, NoMemory>
    requires ready { IsReady (means P.fast P.dials K.port) t.now
        (stage (M.plain g.old) (beside_arena port.old cache.old space.old) said.old.items) }
    requires other { is_main (M.plain g.old) ≡ false }
    requires apart { AreApart P.fast P.dials }
    requires tuned { IsSearchable t.now }
    requires size { IsRequestSize nb }
    requires short { has_top_for (M.plain g.old) nb ≡ false }
    ensures grows { GrowsHeaps (means P.fast P.dials K.port) t.now nb
        (stage (M.plain g.old) (beside_arena port.old cache.old space.old) said.old.items)
        result (stage (M.plain g.new) (beside_arena port.new cache.new space.new) said.new.items) }
    ensures lacks { let room = word_room M.break_room M.piece_room M.extension_room M.heap_room in
        OnErr result (Lacks room P.fast t.now nb (M.plain g.new) g.new port.new said.new) }
{
    let growth = extension_for(g, nb);
    if ask_extension(g, growth, space, t, said)? {
        g.extend_heap(growth);
        return Ok(true);
    }
    let len = heap_for(nb, t);
    if !ask_heap(g, len, space, t, said)? {
        return Ok(false);
    }
    let rest = g.add_heap(len);
    close(g, rest, cache, port, space, t, said)?;
    Ok(true)
}

/// The heaps are asked for once more; either way a chunk is cut from top where that suffices.
fn grow_again<M: Moves, K: Kernel, P: FastPort + Dials>(
    g: &mut M,
    nb: Size,
    cache: &mut Cache,
    port: &mut P,
    space: &mut Space<K>,
    t: &Tunables,
    said: &mut Vec<Said>,
) -> Result<Found, NoMemory>
    requires ready { IsReady (means P.fast P.dials K.port) t.now
        (stage (M.plain g.old) (beside_arena port.old cache.old space.old) said.old.items) }
    requires other { is_main (M.plain g.old) ≡ false }
    requires apart { AreApart P.fast P.dials }
    requires tuned { IsSearchable t.now }
    requires size { IsRequestSize nb }
    requires short { has_top_for (M.plain g.old) nb ≡ false }
    ensures finds { Finds (means P.fast P.dials K.port) t.now (grown_again t.now nb (M.plain g.old))
        (stage (M.plain g.old) (beside_arena port.old cache.old space.old) said.old.items)
        result (stage (M.plain g.new) (beside_arena port.new cache.new space.new) said.new.items) }
    ensures fits { IfOk result (FitsFound nb) }
    ensures lacks { let room = word_room M.break_room M.piece_room M.extension_room M.heap_room in
        OnErr result (Lacks room P.fast t.now nb (M.plain g.new) g.new port.new said.new) }
{
    grow_heaps(g, nb, cache, port, space, t, said)?;
    Ok(cut_from_grown(g, nb))
}

/// A mapping is asked for; where that is refused, the heaps are asked for once more.
fn map_or_grow_again<M: Moves, K: Kernel, P: FastPort + Dials>(
    g: &mut M,
    nb: Size,
    cache: &mut Cache,
    port: &mut P,
    space: &mut Space<K>,
    t: &Tunables,
    said: &mut Vec<Said>,
) -> Result<Found, NoMemory>
    requires ready { IsReady (means P.fast P.dials K.port) t.now
        (stage (M.plain g.old) (beside_arena port.old cache.old space.old) said.old.items) }
    requires other { is_main (M.plain g.old) ≡ false }
    requires apart { AreApart P.fast P.dials }
    requires tuned { IsSearchable t.now }
    requires size { IsRequestSize nb }
    requires short { has_top_for (M.plain g.old) nb ≡ false }
    requires allows { AllowsMaps P.dials port.old space.old }
    ensures finds { let a = M.plain g.old in
        Finds (means P.fast P.dials K.port) t.now (maps_else nb a (grown_again t.now nb a))
        (stage a (beside_arena port.old cache.old space.old) said.old.items)
        result (stage (M.plain g.new) (beside_arena port.new cache.new space.new) said.new.items) }
    ensures fits { IfOk result (FitsFound nb) }
    ensures lacks { let room = word_room M.break_room M.piece_room M.extension_room M.heap_room in
        OnErr result (Lacks room P.fast t.now nb (M.plain g.new) g.new port.new said.new) }
{
    match ask_mapping(nb, port, space, said)? {
        Some(c) => Ok(Found::InMapping(c)),
        None => grow_again(g, nb, cache, port, space, t, said),
    }
}

/// Another arena grows, and a chunk is cut from its top. Where its heaps are refused a mapping is asked for, unless one was
/// before, and then the heaps once more (the part of glibc's `sysmalloc` for arenas that aren't main).
pub fn grow_other<M: Moves, K: Kernel, P: FastPort + Dials>(
    g: &mut M,
    nb: Size,
    tried: bool,
    cache: &mut Cache,
    port: &mut P,
    space: &mut Space<K>,
    t: &Tunables,
    said: &mut Vec<Said>,
) -> Result<Found, NoMemory>
    requires ready { IsReady (means P.fast P.dials K.port) t.now
        (stage (M.plain g.old) (beside_arena port.old cache.old space.old) said.old.items) }
    requires other { is_main (M.plain g.old) ≡ false }
    requires apart { AreApart P.fast P.dials }
    requires tuned { IsSearchable t.now }
    requires size { IsRequestSize nb }
    requires short { has_top_for (M.plain g.old) nb ≡ false }
    requires allows { tried ≡ false → AllowsMaps P.dials port.old space.old }
    ensures finds { Finds (means P.fast P.dials K.port) t.now
        (other_grown t.now nb tried (M.plain g.old))
        (stage (M.plain g.old) (beside_arena port.old cache.old space.old) said.old.items)
        result (stage (M.plain g.new) (beside_arena port.new cache.new space.new) said.new.items) }
    ensures fits { IfOk result (FitsFound nb) }
    ensures lacks { let room = word_room M.break_room M.piece_room M.extension_room M.heap_room in
        OnErr result (Lacks room P.fast t.now nb (M.plain g.new) g.new port.new said.new) }
{
    let grown = grow_heaps(g, nb, cache, port, space, t, said)?;
    if grown || tried {
        return Ok(cut_from_grown(g, nb));
    }
    map_or_grow_again(g, nb, cache, port, space, t, said)
}
