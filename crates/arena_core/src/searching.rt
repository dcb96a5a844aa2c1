//! The search for a chunk in an arena.

ghost use Rattle.std.specs.Prelude.{◌≡◌, IfOk, OnErr};
ghost use Rattle.chunk_tags.specs.Sizes.{IsRequestSize};
ghost use Rattle.address_space.specs.Ports.{Rose};
ghost use Rattle.address_space.specs.Spaces.{space_refusals};
ghost use Rattle.arena_rules.specs.Search.{rounds, searched};
ghost use Rattle.consolidate_trim.specs.Outside.{AreApart, means};
ghost use Rattle.arena_growth.specs.Ledgers.{stage};
ghost use Rattle.arena_growth.specs.Asking.{IsSearchable, IsReady, AllowsMaps, Finds, FitsFound, beside_arena};
ghost use Rattle.arena_growth.specs.Lacks.{Lacks, word_room};

use address_space::{Kernel, Space};
use arena_growth::{Found, Step, ask_flag, ask_system, begin, look};
use arena_rules::{Moves, Said};
use chunk_tags::{NoMemory, Size, Tunables};
use consolidate_trim::consolidate;
use fast_bins::FastPort;
use mapped_chunks::Dials;
use thread_cache::Cache;

/// How often the arena is consolidated where top doesn't suffice (this project's own).
const ROUNDS: u8 = 2;

/// The scan and what follows it. Where top doesn't suffice and chunks may be in the fast bins, these are consolidated and all
/// of this comes again, so many times at most; else the system is asked.
fn go_round<M: Moves, K: Kernel, P: FastPort + Dials>(
    g: &mut M,
    nb: Size,
    cache: &mut Cache,
    port: &mut P,
    space: &mut Space<K>,
    t: &Tunables,
    said: &mut Vec<Said>,
    again: u8,
) -> Result<Found, NoMemory>
    requires ready { IsReady (means P.fast P.dials K.port) t.now
        (stage (M.plain g.old) (beside_arena port.old cache.old space.old) said.old.items) }
    requires allows { AllowsMaps P.dials port.old space.old }
    requires apart { AreApart P.fast P.dials }
    requires tuned { IsSearchable t.now }
    requires size { IsRequestSize nb }
    ensures finds { Finds (means P.fast P.dials K.port) t.now
        (rounds again t.now nb (M.plain g.old))
        (stage (M.plain g.old) (beside_arena port.old cache.old space.old) said.old.items)
        result (stage (M.plain g.new) (beside_arena port.new cache.new space.new) said.new.items) }
    ensures fits { IfOk result (FitsFound nb) }
    ensures refused { IfOk result (λ found. found ≡ Found.Nowhere
        → Rose (space_refusals K.port space.old) (space_refusals K.port space.new)) }
    ensures lacks { let room = word_room M.break_room M.piece_room M.extension_room M.heap_room in
        OnErr result (Lacks room P.fast t.now nb (M.plain g.new) g.new port.new said.new) }
{
    match look(g, nb, cache, said)? {
        Step::Taken(c) => Ok(Found::InArena(c)),
        Step::Onward => {
            if again == 0 {
                return ask_system(g, nb, cache, port, space, t, said);
            }
            if !ask_flag(port, said)? {
                return ask_system(g, nb, cache, port, space, t, said);
            }
            consolidate(g, port, said)?;
            go_round(g, nb, cache, port, space, t, said, again - 1)
        }
    }
}

/// Searches an arena for a chunk of `nb` bytes (glibc's `_int_malloc`). Nothing is found only where an ask was refused.
pub fn search<M: Moves, K: Kernel, P: FastPort + Dials>(
    g: &mut M,
    nb: Size,
    cache: &mut Cache,
    port: &mut P,
    space: &mut Space<K>,
    t: &Tunables,
    said: &mut Vec<Said>,
) -> Result<Found, NoMemory>
    requires ready { IsReady (means P.fast P.dials K.port) t.now
        (stage (M.plain g.old) (beside_arena port.old cache.old space.old) said.old.items) }
    requires allows { AllowsMaps P.dials port.old space.old }
    requires apart { AreApart P.fast P.dials }
    requires tuned { IsSearchable t.now }
    requires size { IsRequestSize nb }
    ensures finds { Finds (means P.fast P.dials K.port) t.now (searched t.now nb (M.plain g.old))
        (stage (M.plain g.old) (beside_arena port.old cache.old space.old) said.old.items)
        result (stage (M.plain g.new) (beside_arena port.new cache.new space.new) said.new.items) }
    ensures fits { IfOk result (FitsFound nb) }
    ensures refused { IfOk result (λ found. found ≡ Found.Nowhere
        → Rose (space_refusals K.port space.old) (space_refusals K.port space.new)) }
    ensures lacks { let room = word_room M.break_room M.piece_room M.extension_room M.heap_room in
        OnErr result (Lacks room P.fast t.now nb (M.plain g.new) g.new port.new said.new) }
{
    match begin(g, nb, cache, port, t, said)? {
        Step::Taken(c) => Ok(Found::InArena(c)),
        Step::Onward => go_round(g, nb, cache, port, space, t, said, ROUNDS),
    }
}
