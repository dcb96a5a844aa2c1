//! The chunks of an arena's fast bins are merged, where nobody pushes to these any more.

ghost use Rattle.std.specs.Prelude.{◌≡◌, ◌+◌, ◌<◌, ◌≤◌, length, map, fold};
ghost use Rattle.chunk_tags.specs.BinOrder.{fast_chunk};
ghost use Rattle.arena_rules.specs.PlainArena.{IsSound};
ghost use Rattle.page_trim.specs.Trimming.{AreListed, HasUsed, chunks_listed, consolidated_arena, merged_into};

use arena_rules::Moves;
use chunk_tags::{Addr, Chunk, Size};
use consolidate_trim::merge;

/// How many fast bins there are (glibc's `NFASTBINS`).
const FAST_BINS: usize = 10;

/// The chunk of a fast bin that begins at this address.
fn fast_chunk_at(bin: usize, at: Addr) -> Chunk
    requires { bin < 10 }
    ensures { result ≡ fast_chunk bin at }
{
    Chunk {
        at,
        size: Size(32 + 16 * bin as u64),
    }
}

/// Merges the chunks of one bin, front first.
fn merge_list<M: Moves>(g: &mut M, bin: usize, list: &[Addr])
    requires bin { bin < 10 }
    requires used { HasUsed (map (fast_chunk bin) list.now) (M.plain g.old) }
    ensures { M.plain g.new ≡ fold merged_into (M.plain g.old) (map (fast_chunk bin) list.now) }
{
    for at in list {
        merge(g, fast_chunk_at(bin, *at));
    }
}

/// Merges the chunks of ten fast bins, ascending (glibc's `malloc_consolidate`). No memory is asked for.
#[tactic(auto, unfolding(crate::specs::Trimming::consolidated_arena))]
pub(crate) fn consolidate_listed<M: Moves>(g: &mut M, fast: &[Vec<Addr>])
    requires ten { length fast.now ≡ 10 }
    requires listed { AreListed (map (λ l. l.items) fast.now) (M.plain g.old) }
    ensures consolidated { M.plain g.new
        ≡ consolidated_arena (map (λ l. l.items) fast.now) (M.plain g.old) }
    ensures sound { IsSound (M.plain g.new) }
{
    for bin in 0..FAST_BINS {
        merge_list(g, bin, fast[bin].as_slice());
    }
}
