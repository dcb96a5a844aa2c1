//! A list of blocks whose room is reserved when it is made.

ghost use Rattle.std.specs.Prelude.{◌≡◌, ℕ, ◌<◌, ◌≤◌, [], ◌∷◌, drop, length, map, IfOk, slice_get};
ghost use Rattle.thread_cache.specs.Caches.{block_tile};

use chunk_tags::{Addr, Block, Tile, TileKind};
use std::alloc::{AllocError, Global};
use std::marker::Model;

/// The blocks of one list of a cache, newest first, with room that was reserved for them (this project's own).
#[derive(Debug, Drop)]
pub struct Stack {
    oldest_first: Vec<Block>,
}

impl Model for Stack {
    ghost use Rattle.std.specs.Prelude.{reverse, vec_capacity};
    ghost use Rattle.thread_cache.specs.Stacks.{Stacked};

    ghost Value = { Stacked };

    ghost view = { λ s. record { room = vec_capacity s.oldest_first; blocks = reverse s.oldest_first.items } };
}

/// A block as a tile: cached chunks are used ones.
fn tile(block: &Block) -> Tile
    ensures { result ≡ block_tile block.now }
{
    Tile {
        addr: block.addr,
        size: block.size,
        kind: TileKind::Used,
    }
}

impl Stack {
    /// An empty list with room for so many blocks.
    pub fn with_room(alloc: Global, room: u16) -> Result<Stack, AllocError>
        ensures empty { IfOk result (λ s. s.blocks ≡ []) }
        ensures room { IfOk result (λ s. s.room ≡ room) }
    {
        Ok(Stack {
            oldest_first: Vec::with_capacity(alloc, usize::from(room))?,
        })
    }

    /// How many blocks there are.
    pub fn len(&self) -> usize
        ensures { result ≡ length self.now.blocks }
    {
        self.oldest_first.len()
    }

    /// Puts a block at the front. There is room, so no memory is asked for.
    pub fn push(&mut self, b: Block)
        requires { length self.old.blocks < self.old.room }
        ensures pushed { self.new.blocks ≡ b ∷ self.old.blocks }
        ensures room { self.old.room ≤ self.new.room }
    {
        self.oldest_first.push(b).unwrap();
    }

    /// The newest block, which leaves the list.
    pub fn pop(&mut self) -> Option<Block>
        ensures newest { result ≡ slice_get self.old.blocks 0 }
        ensures blocks { self.new.blocks ≡ drop 1 self.old.blocks }
        ensures room { self.new.room ≡ self.old.room }
    {
        self.oldest_first.pop()
    }

    /// The addresses, newest first.
    pub fn addresses(&self, alloc: Global) -> Result<Vec<Addr>, AllocError>
        ensures { IfOk result (λ v. v.items ≡ map (λ b. b.addr) self.now.blocks) }
    {
        self.oldest_first
            .iter()
            .rev()
            .map(|b| b.addr)
            .collect(alloc)
    }

    /// The blocks as tiles, newest first.
    pub fn tiles(&self, alloc: Global) -> Result<Vec<Tile>, AllocError>
        ensures { IfOk result (λ v. v.items ≡ map block_tile self.now.blocks) }
    {
        let mut tiles = Vec::with_capacity(alloc, self.oldest_first.len())?;
        for block in &self.oldest_first {
            tiles.push(tile(block))?;
        }
        tiles.reverse();
        Ok(tiles)
    }
}
