//! A used chunk gets another size, and what is left is released.

ghost use Rattle.std.specs.Prelude.{◌≡◌, ◌≤◌, IfOk, IfErr, OnErr};
ghost use Rattle.chunk_tags.specs.Sizes.{IsRequestSize};
ghost use Rattle.address_space.specs.Ports.{Rose};
ghost use Rattle.address_space.specs.Spaces.{space_refusals};
ghost use Rattle.consolidate_trim.specs.Holds.{IsBacked, one_chunk};
ghost use Rattle.consolidate_trim.specs.Outside.{AreApart, means};
ghost use Rattle.consolidate_trim.specs.Lacks.{LacksRoom};
ghost use Rattle.arena_growth.specs.Ledgers.{stage};
ghost use Rattle.arena_growth.specs.Asking.{IsSearchable, IsReady, AllowsMaps, Closes, FitsFound, beside_arena, chunks_in};
ghost use Rattle.arena_growth.specs.Lacks.{Lacks, word_room};
ghost use Rattle.realloc_align.specs.Resizes.{Resizes};

use crate::reshaping::reshape;
use address_space::{Kernel, Space};
use arena_growth::{Found, close};
use arena_rules::{Moves, Said};
use chunk_tags::{Chunk, NoMemory, Size, Tunables};
use fast_bins::FastPort;
use mapped_chunks::Dials;
use thread_cache::Cache;

/// Want of memory in a resize (this project's own).
#[derive(Clone, Copy, Debug, PartialEq, Eq)]
pub struct Stranded {
    /// Where the block is then; nothing where it is as it was.
    pub found: Found,
}

/// Gives a used chunk `nb` bytes, or finds another for its block, and releases what is left of the old one (glibc's
/// `_int_realloc`). Nothing is found only where an ask was refused.
pub fn resize_in<M: Moves, K: Kernel, P: FastPort + Dials>(
    g: &mut M,
    c: Chunk,
    nb: Size,
    cache: &mut Cache,
    port: &mut P,
    space: &mut Space<K>,
    t: &Tunables,
    said: &mut Vec<Said>,
) -> Result<Found, Stranded>
    requires ready { IsReady (means P.fast P.dials K.port) t.now
        (stage (M.plain g.old) (beside_arena port.old cache.old space.old) said.old.items) }
    requires backed { IsBacked P.fast (M.plain g.old) port.old (one_chunk c) }
    requires allows { AllowsMaps P.dials port.old space.old }
    requires apart { AreApart P.fast P.dials }
    requires tuned { IsSearchable t.now }
    requires size { IsRequestSize nb }
    ensures resizes { Resizes (means P.fast P.dials K.port) t.now c nb
        (stage (M.plain g.old) (beside_arena port.old cache.old space.old) said.old.items)
        result (stage (M.plain g.new) (beside_arena port.new cache.new space.new) said.new.items) }
    ensures fits { IfOk result (FitsFound nb) }
    ensures stranded { IfErr result (λ s. FitsFound nb s.found) }
    ensures refused { IfOk result (λ found. found ≡ Found.Nowhere
        → Rose (space_refusals K.port space.old) (space_refusals K.port space.new)) }
    ensures lacks { let room = word_room M.break_room M.piece_room M.extension_room M.heap_room in
        IfErr result (λ _. Lacks room P.fast t.now nb (M.plain g.new) g.new port.new said.new) }
{
    let Ok(reshaped) = reshape(g, c, nb, cache, port, space, t, said) else {
        return Err(Stranded {
            found: Found::Nowhere,
        });
    };
    let found = reshaped.found;
    match close(g, reshaped.rest, cache, port, space, t, said) {
        Ok(()) => Ok(found),
        Err(NoMemory) => Err(Stranded { found }),
    }
}
