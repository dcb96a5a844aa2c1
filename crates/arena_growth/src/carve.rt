//! A chunk is cut to size.

ghost use Rattle.std.specs.Prelude.{◌≡◌, ◌-◌, ◌<◌, ◌≤◌, IsTrue};
ghost use Rattle.chunk_tags.specs.Sizes.{IsChunkSize};
ghost use Rattle.arena_rules.specs.PlainArena.{IsSound, times_listed};
ghost use Rattle.arena_rules.specs.Search.{carved, carved_chunk, with_remainder};
ghost use Rattle.arena_growth.specs.Steps.{IsEnough};

use arena_rules::Moves;
use chunk_tags::{Chunk, MIN_CHUNK, Size, is_small};

/// What a size has beyond `nb` bytes.
fn beyond(size: Size, nb: Size) -> u64
    requires { nb ≤ size }
    ensures { result ≡ size - nb }
{
    size.0 - nb.0
}

/// Takes a free chunk for `nb` bytes, and gives the chunk that is taken. A rest of at least `MIN_CHUNK` goes to the front
/// of unsorted, and is the last remainder where `nb` is small; a smaller one stays with the chunk (in glibc's
/// `_int_malloc`).
pub fn carve<M: Moves>(g: &mut M, c: &Chunk, nb: Size) -> Chunk
    requires sound { IsSound (M.plain g.old) }
    requires listed { 0 < times_listed c.now (M.plain g.old) }
    requires chunk { IsChunkSize nb }
    requires fits { nb ≤ c.now.size }
    ensures chunk { result ≡ carved_chunk c.now nb }
    ensures fits { IsEnough nb result.size }
    ensures arena { M.plain g.new ≡ with_remainder (carved (M.plain g.old) c.now nb) c.now nb }
{
    g.claim(*c);
    if beyond(c.size, nb) < MIN_CHUNK {
        return *c;
    }
    let rest = &g.part(*c, nb);
    g.shelve(*rest);
    if is_small(nb) {
        g.set_last_remainder(rest.at);
    }
    Chunk { at: c.at, size: nb }
}
