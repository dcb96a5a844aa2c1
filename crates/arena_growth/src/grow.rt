//! An arena grows, and a chunk is cut from its top.

ghost use Rattle.std.specs.Prelude.{◌≡◌, false, IfOk, OnErr};
ghost use Rattle.chunk_tags.specs.Sizes.{IsRequestSize};
ghost use Rattle.arena_rules.specs.Growth.{has_top_for, piece_grown, main_grown, grown};
ghost use Rattle.consolidate_trim.specs.Outside.{AreApart, means};
ghost use Rattle.arena_growth.specs.Ledgers.{stage};
ghost use Rattle.arena_growth.specs.Asking.{IsSearchable, IsReady, IsMainReady, AllowsMaps, Grows, Finds, FitsFound, beside_arena};
ghost use Rattle.arena_growth.specs.Lacks.{Lacks, word_room};

use crate::closing::{close, cut_from_grown};
use crate::found::Found;
use crate::grow_heaps::grow_other;
use crate::growth::{ask_break, ask_piece, growth_for, piece_for};
use crate::has_top_for;
use address_space::{Kernel, Space};
use arena_rules::{Moves, Said};
use chunk_tags::{NoMemory, Size, Tunables};
use fast_bins::FastPort;
use mapped_chunks::Dials;
use thread_cache::Cache;

/// Where the break is refused, a piece is asked for, which becomes top.
fn grow_piece<M: Moves, K: Kernel, P: FastPort + Dials>(
    g: &mut M,
    nb: Size,
    cache: &mut Cache,
    port: &mut P,
    space: &mut Space<K>,
    t: &Tunables,
    said: &mut Vec<Said>,
) -> Result<(), NoMemory>
    requires ready { IsMainReady (means P.fast P.dials K.port) t.now
        (stage (M.plain g.old) (beside_arena port.old cache.old space.old) said.old.items) }
    requires apart { AreApart P.fast P.dials }
    requires tuned { IsSearchable t.now }
    requires size { IsRequestSize nb }
    requires short { has_top_for (M.plain g.old) nb ≡ false }
    ensures grows { Grows (means P.fast P.dials K.port) t.now (piece_grown t.now nb (M.plain g.old))
        (stage (M.plain g.old) (beside_arena port.old cache.old space.old) said.old.items)
        result (stage (M.plain g.new) (beside_arena port.new cache.new space.new) said.new.items) }
    ensures lacks { let room = word_room M.break_room M.piece_room M.extension_room M.heap_room in
        OnErr result (Lacks room P.fast t.now nb (M.plain g.new) g.new port.new said.new) }
{
    let len = piece_for(g, nb, t);
    if !ask_piece(g, len, space, t, said)? {
        return Ok(());
    }
    let rest = g.take_piece(len);
    close(g, rest, cache, port, space, t, said)
}

/// The break grows, or a piece is got. Where the closing of an old top trimmed so much of the new one that it doesn't suffice,
/// all of this is gone through once more, so many turns in all.
fn grow_main<M: Moves, K: Kernel, P: FastPort + Dials>(
    g: &mut M,
    nb: Size,
    cache: &mut Cache,
    port: &mut P,
    space: &mut Space<K>,
    t: &Tunables,
    said: &mut Vec<Said>,
    turns: u8,
) -> Result<(), NoMemory>
    requires ready { IsMainReady (means P.fast P.dials K.port) t.now
        (stage (M.plain g.old) (beside_arena port.old cache.old space.old) said.old.items) }
    requires apart { AreApart P.fast P.dials }
    requires tuned { IsSearchable t.now }
    requires size { IsRequestSize nb }
    requires short { has_top_for (M.plain g.old) nb ≡ false }
    ensures grows { Grows (means P.fast P.dials K.port) t.now
        (main_grown turns t.now nb (M.plain g.old))
        (stage (M.plain g.old) (beside_arena port.old cache.old space.old) said.old.items)
        result (stage (M.plain g.new) (beside_arena port.new cache.new space.new) said.new.items) }
    ensures lacks { let room = word_room M.break_room M.piece_room M.extension_room M.heap_room in
        OnErr result (Lacks room P.fast t.now nb (M.plain g.new) g.new port.new said.new) }
{
    if turns == 0 {
        return Ok(());
    }
    let growth = growth_for(g, nb, t);
    if !ask_break(g, growth, space, t, said)? {
        return grow_piece(g, nb, cache, port, space, t, said);
    }
    let rest = g.take_break(growth);
    close(g, rest, cache, port, space, t, said)?;
    if has_top_for(g, nb) {
        return Ok(());
    }
    grow_main(g, nb, cache, port, space, t, said, turns - 1)
}

/// An arena grows, main by its break or a piece, another one by its heaps, and a chunk is cut from its top where that
/// suffices then. `tried` says whether a mapping was asked for (the part of glibc's `sysmalloc` behind that).
pub fn grow<M: Moves, K: Kernel, P: FastPort + Dials>(
    g: &mut M,
    nb: Size,
    tried: bool,
    cache: &mut Cache,
    port: &mut P,
    space: &mut Space<K>,
    t: &Tunables,
    said: &mut Vec<Said>,
) -> Result<Found, NoMemory>
    requires ready { IsReady (means P.fast P.dials K.port) t.now
        (stage (M.plain g.old) (beside_arena port.old cache.old space.old) said.old.items) }
    requires allows { tried ≡ false → AllowsMaps P.dials port.old space.old }
    requires apart { AreApart P.fast P.dials }
    requires tuned { IsSearchable t.now }
    requires size { IsRequestSize nb }
    requires short { has_top_for (M.plain g.old) nb ≡ false }
    ensures finds { Finds (means P.fast P.dials K.port) t.now (grown t.now nb tried (M.plain g.old))
        (stage (M.plain g.old) (beside_arena port.old cache.old space.old) said.old.items)
        result (stage (M.plain g.new) (beside_arena port.new cache.new space.new) said.new.items) }
    ensures fits { IfOk result (FitsFound nb) }
    ensures lacks { let room = word_room M.break_room M.piece_room M.extension_room M.heap_room in
        OnErr result (Lacks room P.fast t.now nb (M.plain g.new) g.new port.new said.new) }
{
    if g.number() != 0 {
        return grow_other(g, nb, tried, cache, port, space, t, said);
    }
    grow_main(g, nb, cache, port, space, t, said, 2)?;
    Ok(cut_from_grown(g, nb))
}
