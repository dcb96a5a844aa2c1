//! A chunk is merged with its free neighbours.

ghost use Rattle.std.specs.Prelude.{◌≡◌, IsTrue};
ghost use Rattle.arena_rules.specs.PlainArena.{IsSound, is_own};
ghost use Rattle.arena_rules.specs.Release.{merged};
ghost use Rattle.consolidate_trim.specs.Merges.{merging_of, size_merged};

use arena_rules::Moves;
use chunk_tags::{Chunk, Size};

/// What a merged chunk has become, with its size.
#[derive(Clone, Copy, Debug, PartialEq, Eq)]
pub enum Merged {
    /// A free chunk of this size, in front of unsorted.
    Unsorted(Size),
    /// Part of top, which now has this size.
    Top(Size),
}

impl Merged {
    /// The size of the chunk that it has become, or of top.
    pub fn size(self) -> Size
        ensures { result ≡ size_merged self }
    {
        match self {
            Merged::Unsorted(size) | Merged::Top(size) => size,
        }
    }
}

/// Merges a used chunk with the chunk before it and the one behind it, where these are free. Before top it becomes part
/// of top, else it goes to the front of unsorted (in glibc's `_int_free`). No memory is asked for.
pub fn merge<M: Moves>(g: &mut M, c: Chunk) -> Merged
    requires sound { IsSound (M.plain g.old) }
    requires own { IsTrue (is_own (M.plain g.old) c) }
    ensures { merging_of result (M.plain g.new) ≡ merged (M.plain g.old) c }
{
    let longer = g.join_before(c);
    let Chunk { at, size } = g.join_behind(longer);
    if g.is_before_top(Chunk { at, size }) {
        Merged::Top(g.absorb(Chunk { at, size }))
    } else {
        g.shelve(Chunk { at, size });
        Merged::Unsorted(size)
    }
}
