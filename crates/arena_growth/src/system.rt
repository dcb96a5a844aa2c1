//! The system is asked.

ghost use Rattle.std.specs.Prelude.{◌≡◌, true, false, IfOk, OnErr};
ghost use Rattle.chunk_tags.specs.Sizes.{IsRequestSize};
ghost use Rattle.address_space.specs.Ports.{Rose};
ghost use Rattle.address_space.specs.Spaces.{space_refusals};
ghost use Rattle.arena_rules.specs.Growth.{has_top_for, grown, maps_else, system_asked};
ghost use Rattle.consolidate_trim.specs.Outside.{AreApart, means};
ghost use Rattle.arena_growth.specs.Ledgers.{stage};
ghost use Rattle.arena_growth.specs.Asking.{IsSearchable, IsReady, AllowsMaps, Finds, FitsFound, beside_arena};
ghost use Rattle.arena_growth.specs.Lacks.{Lacks, word_room};

use crate::found::Found;
use crate::grow::grow;
use crate::mapping::{ask_mapping, maps_first};
use address_space::{Kernel, Space};
use arena_rules::{Moves, Said};
use chunk_tags::{NoMemory, Size, Tunables};
use fast_bins::FastPort;
use mapped_chunks::Dials;
use thread_cache::Cache;

/// A mapping is asked for; where that is refused, the arena grows.
fn map_or_grow<M: Moves, K: Kernel, P: FastPort + Dials>(
    g: &mut M,
    nb: Size,
    cache: &mut Cache,
    port: &mut P,
    space: &mut Space<K>,
    t: &Tunables,
    said: &mut Vec<Said>,
) -> Result<Found, NoMemory>
    requires ready { IsReady (means P.fast P.dials K.port) t.now
        (stage (M.plain g.old) (beside_arena port.old cache.old space.old) said.old.items) }
    requires allows { AllowsMaps P.dials port.old space.old }
    requires apart { AreApart P.fast P.dials }
    requires tuned { IsSearchable t.now }
    requires size { IsRequestSize nb }
    requires short { has_top_for (M.plain g.old) nb ≡ false }
    ensures finds { let a = M.plain g.old in
        Finds (means P.fast P.dials K.port) t.now (maps_else nb a (grown t.now nb true a))
        (stage a (beside_arena port.old cache.old space.old) said.old.items)
        result (stage (M.plain g.new) (beside_arena port.new cache.new space.new) said.new.items) }
    ensures fits { IfOk result (FitsFound nb) }
    ensures lacks { let room = word_room M.break_room M.piece_room M.extension_room M.heap_room in
        OnErr result (Lacks room P.fast t.now nb (M.plain g.new) g.new port.new said.new) }
{
    match ask_mapping(nb, port, space, said)? {
        Some(c) => Ok(Found::InMapping(c)),
        None => grow(g, nb, true, cache, port, space, t, said),
    }
}

/// Asks the system for `nb` bytes: for a mapping first, where the size reaches the threshold and there aren't too many; else,
/// and where that is refused, the arena grows (glibc's `sysmalloc`). Nothing is found only where an ask was refused.
pub fn ask_system<M: Moves, K: Kernel, P: FastPort + Dials>(
    g: &mut M,
    nb: Size,
    cache: &mut Cache,
    port: &mut P,
    space: &mut Space<K>,
    t: &Tunables,
    said: &mut Vec<Said>,
) -> Result<Found, NoMemory>
    requires ready { IsReady (means P.fast P.dials K.port) t.now
        (stage (M.plain g.old) (beside_arena port.old cache.old space.old) said.old.items) }
    requires allows { AllowsMaps P.dials port.old space.old }
    requires apart { AreApart P.fast P.dials }
    requires tuned { IsSearchable t.now }
    requires size { IsRequestSize nb }
    requires short { has_top_for (M.plain g.old) nb ≡ false }
    ensures finds { Finds (means P.fast P.dials K.port) t.now
        (system_asked t.now nb (M.plain g.old))
        (stage (M.plain g.old) (beside_arena port.old cache.old space.old) said.old.items)
        result (stage (M.plain g.new) (beside_arena port.new cache.new space.new) said.new.items) }
    ensures fits { IfOk result (FitsFound nb) }
    ensures refused { IfOk result (λ found. found ≡ Found.Nowhere
        → Rose (space_refusals K.port space.old) (space_refusals K.port space.new)) }
    ensures lacks { let room = word_room M.break_room M.piece_room M.extension_room M.heap_room in
        OnErr result (Lacks room P.fast t.now nb (M.plain g.new) g.new port.new said.new) }
{
    g.top_law();
    if maps_first(nb, port, t, said)? {
        return map_or_grow(g, nb, cache, port, space, t, said);
    }
    grow(g, nb, false, cache, port, space, t, said)
}
