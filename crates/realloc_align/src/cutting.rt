//! A used chunk is cut to size.

ghost use Rattle.std.specs.Prelude.{◌≡◌, ◌-◌, ◌≤◌, IsTrue};
ghost use Rattle.chunk_tags.specs.Sizes.{IsChunkSize};
ghost use Rattle.arena_rules.specs.PlainArena.{IsSound, is_own};
ghost use Rattle.arena_rules.specs.Resize.{front_of};
ghost use Rattle.realloc_align.specs.Resizes.{cut_of, arena_cut};

use arena_growth::Found;
use arena_rules::Moves;
use chunk_tags::{Chunk, MIN_CHUNK, Size};

/// What the arena of a resize came to before its release (this project's own).
#[derive(Clone, Copy, Debug, PartialEq, Eq)]
pub struct Reshaped {
    /// Where the block is: a chunk of the arena or a mapping; nothing where it stays as it was.
    pub found: Found,
    /// What is released then: a rest that was parted off, or the old chunk.
    pub rest: Option<Chunk>,
}

impl Reshaped {
    /// The block is in this chunk, and nothing is to be released.
    pub fn whole(c: Chunk) -> Reshaped
        ensures { result ≡ record { found = Found.InArena c; rest = None } }
    {
        Reshaped {
            found: Found::InArena(c),
            rest: None,
        }
    }
}

/// What a chunk has beyond `nb` bytes.
fn beyond(c: &Chunk, nb: Size) -> u64
    requires { nb ≤ c.now.size }
    ensures { result ≡ c.now.size - nb }
{
    c.size.0 - nb.0
}

/// The first `nb` bytes of a chunk.
pub fn front_of(c: &Chunk, nb: Size) -> Chunk
    ensures { result ≡ front_of c.now nb }
{
    Chunk { at: c.at, size: nb }
}

/// Cuts a used chunk to `nb` bytes: a rest of at least `MIN_CHUNK` is parted off, a smaller one stays with the chunk.
pub fn cut<M: Moves>(g: &mut M, c: &Chunk, nb: Size) -> Reshaped
    requires sound { IsSound (M.plain g.old) }
    requires own { IsTrue (is_own (M.plain g.old) c.now) }
    requires chunk { IsChunkSize nb }
    requires fits { nb ≤ c.now.size }
    ensures reshaped { result ≡ cut_of c.now nb }
    ensures arena { M.plain g.new ≡ arena_cut (M.plain g.old) c.now nb }
{
    if beyond(c, nb) < MIN_CHUNK {
        return Reshaped::whole(*c);
    }
    let rest = g.part(*c, nb);
    Reshaped {
        found: Found::InArena(front_of(c, nb)),
        rest: Some(rest),
    }
}
