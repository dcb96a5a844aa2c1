//! A used chunk becomes larger or smaller, or another is found for it, before anything is released.

ghost use Rattle.std.specs.Prelude.{◌≡◌, ◌+◌, ◌<◌, ◌≤◌, IsTrue, IfOk, nat_le, OnErr};
ghost use Rattle.chunk_tags.specs.Sizes.{IsChunkSize, IsRequestSize};
ghost use Rattle.address_space.specs.Ports.{Rose};
ghost use Rattle.address_space.specs.Spaces.{space_refusals};
ghost use Rattle.arena_rules.specs.PlainArena.{IsSound, is_own};
ghost use Rattle.arena_rules.specs.Resize.{fits_with_top, fits_with_free, is_next_to};
ghost use Rattle.consolidate_trim.specs.Holds.{IsBacked, one_chunk};
ghost use Rattle.consolidate_trim.specs.Outside.{AreApart, means};
ghost use Rattle.arena_growth.specs.Ledgers.{stage};
ghost use Rattle.arena_growth.specs.Asking.{IsSearchable, IsReady, AllowsMaps, FitsFound, beside_arena};
ghost use Rattle.arena_growth.specs.Lacks.{Lacks, word_room};
ghost use Rattle.realloc_align.specs.Resizes.{Reshapes, placed_of, arena_placed};

use crate::cutting::{Reshaped, cut, front_of};
use address_space::{Kernel, Space};
use arena_core::search;
use arena_growth::Found;
use arena_rules::{Moves, Said};
use chunk_tags::{Chunk, MIN_CHUNK, NoMemory, Size, TileKind, Tunables};
use fast_bins::FastPort;
use mapped_chunks::Dials;
use thread_cache::Cache;

/// Whether a chunk and another part have `nb` bytes together.
fn suffices(c: &Chunk, more: Size, nb: Size) -> bool
    requires { c.now.size < nb }
    ensures { result ≡ nat_le nb (c.now.size + more) }
{
    nb.0 - c.size.0 <= more.0
}

/// Whether top is directly behind a chunk, and both have `nb` bytes and a smallest chunk.
fn fits_with_top<M: Moves>(g: &M, c: &Chunk, nb: Size) -> bool
    requires sound { IsSound (M.plain g.now) }
    requires own { IsTrue (is_own (M.plain g.now) c.now) }
    requires larger { c.now.size < nb }
    requires size { IsRequestSize nb }
    ensures { result ≡ fits_with_top (M.plain g.now) c.now nb }
{
    let with_chunk = Size(nb.0 + MIN_CHUNK);
    g.is_before_top(*c) && g.top().is_some_and(|top| suffices(c, top.size, with_chunk))
}

/// Whether a free chunk is directly behind a chunk, and both have `nb` bytes.
fn fits_with_free<M: Moves>(g: &M, c: &Chunk, nb: Size) -> bool
    requires sound { IsSound (M.plain g.now) }
    requires own { IsTrue (is_own (M.plain g.now) c.now) }
    requires larger { c.now.size < nb }
    ensures { result ≡ fits_with_free (M.plain g.now) c.now nb }
{
    let next = g.behind(*c);
    next.kind == TileKind::Free && suffices(c, next.size, nb)
}

/// Whether a chunk begins where another ends.
fn is_next_to(c: &Chunk, d: &Chunk) -> bool
    ensures { result ≡ is_next_to c.now d.now }
{
    d.at.0 >= c.at.0 && d.at.0 - c.at.0 == c.size.0
}

/// A chunk that was found is the block's: directly behind the old one it is joined and cut, elsewhere the block is moved,
/// and the old chunk is to be released.
fn place<M: Moves>(g: &mut M, c: &Chunk, d: &Chunk, nb: Size) -> Reshaped
    requires sound { IsSound (M.plain g.old) }
    requires own { IsTrue (is_own (M.plain g.old) c.now) }
    requires found { IsTrue (is_own (M.plain g.old) d.now) }
    requires chunk { IsChunkSize nb }
    requires fits { nb ≤ d.now.size }
    ensures reshaped { result ≡ placed_of c.now d.now nb }
    ensures arena { M.plain g.new ≡ arena_placed (M.plain g.old) c.now d.now nb }
{
    if is_next_to(c, d) {
        let whole = g.join_used(*c, *d);
        return cut(g, &whole, nb);
    }
    Reshaped {
        found: Found::InArena(*d),
        rest: Some(*c),
    }
}

/// Makes a used chunk one of `nb` bytes, or finds another for its block: it is cut, it grows into top or into the free
/// chunk behind it, else the arena is searched (glibc's `_int_realloc`, but for what it releases).
pub fn reshape<M: Moves, K: Kernel, P: FastPort + Dials>(
    g: &mut M,
    c: Chunk,
    nb: Size,
    cache: &mut Cache,
    port: &mut P,
    space: &mut Space<K>,
    t: &Tunables,
    said: &mut Vec<Said>,
) -> Result<Reshaped, NoMemory>
    requires ready { IsReady (means P.fast P.dials K.port) t.now
        (stage (M.plain g.old) (beside_arena port.old cache.old space.old) said.old.items) }
    requires backed { IsBacked P.fast (M.plain g.old) port.old (one_chunk c) }
    requires allows { AllowsMaps P.dials port.old space.old }
    requires apart { AreApart P.fast P.dials }
    requires tuned { IsSearchable t.now }
    requires size { IsRequestSize nb }
    ensures reshapes { Reshapes (means P.fast P.dials K.port) t.now c nb
        (stage (M.plain g.old) (beside_arena port.old cache.old space.old) said.old.items)
        result (stage (M.plain g.new) (beside_arena port.new cache.new space.new) said.new.items) }
    ensures fits { IfOk result (λ r. FitsFound nb r.found) }
    ensures refused { IfOk result (λ r. r.found ≡ Found.Nowhere
        → Rose (space_refusals K.port space.old) (space_refusals K.port space.new)) }
    ensures lacks { let room = word_room M.break_room M.piece_room M.extension_room M.heap_room in
        OnErr result (Lacks room P.fast t.now nb (M.plain g.new) g.new port.new said.new) }
{
    if nb.0 <= c.size.0 {
        return Ok(cut(g, &c, nb));
    }
    if fits_with_top(g, &c, nb) {
        g.grow_into_top(c, nb);
        return Ok(Reshaped::whole(front_of(&c, nb)));
    }
    if fits_with_free(g, &c, nb) {
        let whole = g.join_behind(c);
        return Ok(cut(g, &whole, nb));
    }
    match search(g, nb, cache, port, space, t, said)? {
        Found::InArena(d) => Ok(place(g, &c, &d, nb)),
        Found::InMapping(d) => Ok(Reshaped {
            found: Found::InMapping(d),
            rest: Some(c),
        }),
        Found::Nowhere => Ok(Reshaped {
            found: Found::Nowhere,
            rest: None,
        }),
    }
}
