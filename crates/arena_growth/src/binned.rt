//! A chunk is taken from the bins, or from top.

ghost use Rattle.std.specs.Prelude.{◌≡◌, ◌+◌, nat_le};
ghost use Rattle.chunk_tags.specs.Sizes.{IsChunkSize};
ghost use Rattle.arena_rules.specs.PlainArena.{IsSound};
ghost use Rattle.arena_rules.specs.Growth.{has_top_for};
ghost use Rattle.arena_growth.specs.Steps.{FitsStep, step_of, chosen, topped, taken_behind_scan};

use crate::carve::carve;
use crate::step::Step;
use arena_rules::Moves;
use chunk_tags::{Chunk, MIN_CHUNK, Size, is_small};

/// Whether `nb` bytes leave a smallest chunk of a size.
fn leaves_chunk(size: Size, nb: Size) -> bool
    ensures { result ≡ nat_le (nb + 32) size }
{
    size.0 >= nb.0 && size.0 - nb.0 >= MIN_CHUNK
}

/// The smallest chunk of a large size's own bin that fits, else the last chunk of the first bin above that has one.
fn choose<M: Moves>(g: &mut M, nb: Size) -> Option<Chunk>
    requires sound { IsSound (M.plain g.old) }
    requires chunk { IsChunkSize nb }
    ensures chosen { result ≡ chosen nb (M.plain g.old) }
    ensures arena { M.plain g.new ≡ M.plain g.old }
{
    if !is_small(nb) {
        let best = g.best(nb);
        if best.is_some() {
            return best;
        }
    }
    g.first_larger(nb)
}

/// Whether top can give `nb` bytes and keep a smallest chunk.
pub fn has_top_for<M: Moves>(g: &M, nb: Size) -> bool
    ensures { result ≡ has_top_for (M.plain g.now) nb }
{
    g.top().is_some_and(|top| leaves_chunk(top.size, nb))
}

/// A chunk of `nb` bytes from top, where that keeps a smallest chunk.
pub fn take_top<M: Moves>(g: &mut M, nb: Size) -> Step
    requires sound { IsSound (M.plain g.old) }
    requires chunk { IsChunkSize nb }
    ensures step { step_of result (M.plain g.new) ≡ topped nb (M.plain g.old) }
    ensures fits { FitsStep nb result }
{
    if has_top_for(g, nb) {
        Step::Taken(Chunk {
            at: g.cut_top(nb),
            size: nb,
        })
    } else {
        Step::Onward
    }
}

/// The best chunk of the bins, else a part of top (in glibc's `_int_malloc`, behind the scan of unsorted).
pub fn take_binned<M: Moves>(g: &mut M, nb: Size) -> Step
    requires sound { IsSound (M.plain g.old) }
    requires chunk { IsChunkSize nb }
    ensures step { step_of result (M.plain g.new) ≡ taken_behind_scan nb (M.plain g.old) }
    ensures fits { FitsStep nb result }
{
    match choose(g, nb) {
        Some(c) => Step::Taken(carve(g, &c, nb)),
        None => take_top(g, nb),
    }
}
