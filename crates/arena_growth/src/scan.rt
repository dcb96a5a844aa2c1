//! The scan of the unsorted chunks.

ghost use Rattle.std.specs.Prelude.{◌≡◌, ◌+◌, ◌≤◌, nat_lt, IfOk, IfSome, OnErr};
ghost use Rattle.chunk_tags.specs.Sizes.{IsChunkSize, max_cached};
ghost use Rattle.arena_rules.specs.PlainArena.{IsSound};
ghost use Rattle.arena_rules.specs.Search.{scanned_all};
ghost use Rattle.consolidate_trim.specs.Lacks.{IsFull};
ghost use Rattle.arena_growth.specs.Ledgers.{shelf, stage};
ghost use Rattle.arena_growth.specs.Steps.{Steps, FitsStep, is_remainder, drawn, cache_drawn};

use crate::carve::carve;
use crate::room::{ask_room, stash_free};
use crate::step::Step;
use arena_rules::{Moves, Said};
use chunk_tags::{Chunk, NoMemory, Size, cache_index, is_small};
use thread_cache::Cache;

/// The scan ends behind so many chunks that went to bins (glibc's `MAX_ITERS`).
const MOST_SORTED: u32 = 10_000;

/// Whether a size has a smallest chunk and more beyond `nb` bytes.
fn is_above(size: Size, nb: Size) -> bool
    ensures { result ≡ nat_lt (nb + 32) size }
{
    size.0 > nb.0 && size.0 - nb.0 > 32
}

/// Whether the oldest unsorted chunk is the last remainder, alone there, and is split for a small size.
fn splits_remainder<M: Moves>(g: &M, c: &Chunk, nb: Size) -> bool
    requires { IsSound (M.plain g.now) }
    ensures { result ≡ is_remainder nb (M.plain g.now) c.now }
{
    is_small(nb) && g.has_one_unsorted() && g.last_remainder() == Some(c.at) && is_above(c.size, nb)
}

/// Takes the chunk that was put into the cache last out of it again, where there was one.
fn draw(stashed: Option<Chunk>, nb: Size, cache: &mut Cache) -> Step
    requires { IfSome stashed (λ c. nb ≤ max_cached) }
    ensures step { result ≡ drawn stashed }
    ensures cache { cache.new ≡ cache_drawn stashed nb cache.old }
{
    match stashed {
        Some(c) => {
            let _ = cache.get(cache_index(nb));
            Step::Taken(c)
        }
        None => Step::Onward,
    }
}

/// Goes over the unsorted chunks, oldest first (in glibc's `_int_malloc`). The last remainder, alone there, is split for a
/// small size. A chunk of the very size goes to the cache where that has room, and else is the answer; any other goes to
/// its bin. Where chunks went to the cache, the newest is the answer.
pub fn scan<M: Moves>(
    g: &mut M,
    nb: Size,
    cache: &mut Cache,
    said: &mut Vec<Said>,
) -> Result<Step, NoMemory>
    requires sound { IsSound (M.plain g.old) }
    requires chunk { IsChunkSize nb }
    ensures steps { Steps shelf (scanned_all nb (M.plain g.old))
        (stage (M.plain g.old) cache.old said.old.items)
        result (stage (M.plain g.new) cache.new said.new.items) }
    ensures fits { IfOk result (FitsStep nb) }
    ensures lacks { OnErr result (IsFull said.new) }
{
    let mut sorted = 0;
    let mut stashed = None;
    'scanning: while let Some(c) = g.oldest_unsorted() {
        if splits_remainder(g, &c, nb) {
            return Ok(Step::Taken(carve(g, &c, nb)));
        }
        if c.size == nb {
            if !ask_room(cache, nb, said)? {
                g.claim(c);
                return Ok(Step::Taken(c));
            }
            stash_free(g, &c, cache);
            stashed = Some(c);
        } else {
            g.sort_in(c);
            sorted += 1;
            if sorted == MOST_SORTED {
                return Ok(draw(stashed, nb, cache));
            }
        }
    }
    Ok(draw(stashed, nb, cache))
}
