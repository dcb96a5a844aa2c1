//! The tiles of an arena in its words.

ghost use Rattle.std.specs.Prelude.{◌≡◌, ◌+◌, ◌-◌, ◌^◌, ◌%◌, ◌<◌, ◌≤◌, ◌≢◌, [], ◌∷◌, ◌++◌, false, IsSome, IfOk, OnOk, OnErr};
ghost use Rattle.chunk_tags.specs.Tiles.{is_edge, is_free, end_of, Row, swapped, fused, entered, tile_at, tile_behind};
ghost use Rattle.part_words.specs.Extents.{extended, IsWithinPart};
ghost use Rattle.chunk_image.specs.Rows.{no_tiles, free_before_of, tile_ending, IsRoom, IsWordSize};
ghost use Rattle.chunk_image.specs.Heads.{tiles_with};

use crate::heads::{Cell, Head, PAGE, put, read_foot, read_head};
use chunk_tags::{Addr, NoMemory, Size, Tile, TileKind};
use part_words::Words;
use std::alloc::Global;
use std::marker::Model;

/// The words of an arena that say where its tiles are: a head at the beginning of each tile, and at
/// the end of a free one a foot (this project's own; glibc keeps them in the chunks themselves). A
/// tile has less than 16 GiB. Each call takes constant time, but `tiles` and `open`.
#[derive(Drop)]
pub struct TileWords {
    cells: Words<Cell, PAGE>,
}

impl Model for TileWords {
    ghost use Rattle.chunk_image.specs.Rows.{TileRow};

    ghost Value = { TileRow };

    ghost use Rattle.chunk_image.specs.Heads.{row_of, heads_of, feet_of, IsKept};

    ghost view = { λ s. row_of (heads_of s.cells) };

    ghost invariant = { λ s. IsKept (heads_of s.cells) (feet_of s.cells) };
}

impl TileWords {
    /// No tiles and no words. Parts of address space begin at `base`, and every `stride` bytes after it.
    pub fn new(alloc: Global, base: Addr, stride: u64) -> TileWords
        requires { 16 ≤ stride }
        ensures { result ≡ no_tiles base stride }
    {
        TileWords {
            cells: Words::new(alloc, base.0, stride),
        }
    }

    /// Opens the words of a range of one part. The tiles stay as they are; where memory is short, all does, and that is so
    /// only where there is something to open.
    pub fn open(&mut self, alloc: Global, at: Addr, len: u64) -> Result<(), NoMemory>
        requires { IsWithinPart self.old.extent at len }
        ensures ok { OnOk result
            (self.new ≡ record self.old { extent = extended self.old.extent at len }) }
        ensures err { OnErr result (self.new ≡ self.old) }
        ensures full { OnErr result (extended self.old.extent at len ≢ self.old.extent) }
    {
        self.cells.open(alloc, at.0, len)?;
        Ok(())
    }

    /// The tile that begins at an address.
    pub fn tile(&self, at: Addr) -> Tile
        requires { IsSome (tile_at at self.now.tiles) }
        ensures tile { tile_at at self.now.tiles ≡ Some result }
        ensures room { IsRoom self.now.extent at result.size }
        ensures fits { IsWordSize result.size }
    {
        let head = read_head(&self.cells, at.0);
        Tile {
            addr: at,
            size: Size(head.size),
            kind: head.kind,
        }
    }

    /// The tile before the one at an address, where it is free: glibc's `prev_inuse` and `prev_chunk`.
    pub fn free_before(&self, at: Addr) -> Option<Tile>
        requires row { Row self.now.tiles }
        requires tile { IsSome (tile_at at self.now.tiles) }
        ensures { result ≡ free_before_of at self.now.tiles }
    {
        let size = read_foot(&self.cells, at.0);
        if size == 0 {
            return None;
        }
        Some(Tile {
            addr: Addr(at.0 - size),
            size: Size(size),
            kind: TileKind::Free,
        })
    }

    /// The tile behind a chunk: glibc's `chunk_at_offset`.
    pub fn behind(&self, t: &Tile) -> Tile
        requires row { Row self.now.tiles }
        requires tile { tile_at t.now.addr self.now.tiles ≡ Some t.now }
        requires chunk { is_edge t.now ≡ false }
        ensures { tile_behind t.now.addr self.now.tiles ≡ Some result }
    {
        let cells = &self.cells;
        let end = t.addr.0 + t.size.0;
        let head = read_head(cells, end);
        Tile {
            addr: Addr(end),
            size: Size(head.size),
            kind: head.kind,
        }
    }

    /// The tile that ends at an address. It is looked for backwards from there, word by word: of a fence, for which this is
    /// meant, there are two or three.
    pub fn ending_at(&self, end: Addr) -> Tile
        requires row { Row self.now.tiles }
        requires tile { IsSome (tile_ending end self.now.tiles) }
        ensures { tile_ending end self.now.tiles ≡ Some result }
    {
        let cells = &self.cells;
        let mut at = end.0 - 16;
        let mut head = read_head(cells, at);
        while head.size == 0 {
            at -= 16;
            head = read_head(cells, at);
        }
        Tile {
            addr: Addr(at),
            size: Size(head.size),
            kind: head.kind,
        }
    }

    /// Gives a tile another kind. Only a chunk becomes free.
    pub fn set_kind(&mut self, t: &Tile, kind: TileKind)
        requires row { Row self.old.tiles }
        requires tile { tile_at t.now.addr self.old.tiles ≡ Some t.now }
        requires chunk { kind ≡ TileKind.Free → is_edge t.now ≡ false }
        ensures { self.new ≡ record self.old {
          tiles = swapped t.now.addr (record t.now { kind = kind } ∷ []) self.old.tiles;
        } }
    {
        let at = t.addr.0;
        let size = t.size.0;
        put(&mut self.cells, at, Head { size, kind });
    }

    /// Gives a tile that isn't free another size; where it grows, the words behind it are open.
    pub fn set_size(&mut self, t: &Tile, size: Size)
        requires row { Row self.old.tiles }
        requires tile { tile_at t.now.addr self.old.tiles ≡ Some t.now }
        requires kind { is_free t.now ≡ false }
        requires some { 0 < size }
        requires fits { IsWordSize size }
        requires room { IsRoom self.old.extent (end_of t.now) (size - t.now.size) }
        ensures { self.new ≡ record self.old {
          tiles = swapped t.now.addr (record t.now { size = size } ∷ []) self.old.tiles;
        } }
    {
        let at = t.addr.0;
        let size = size.0;
        let kind = t.kind;
        put(&mut self.cells, at, Head { size, kind });
    }

    /// Cuts a tile into two, the first of `nb` bytes. The first isn't free, and the second only where it was a chunk.
    pub fn split(&mut self, t: &Tile, nb: Size, first: TileKind, rest: TileKind)
        requires row { Row self.old.tiles }
        requires tile { tile_at t.now.addr self.old.tiles ≡ Some t.now }
        requires whole { nb % 16 ≡ 0 }
        requires some { 0 < nb }
        requires less { nb < t.now.size }
        requires first { first ≢ TileKind.Free }
        requires rest { rest ≡ TileKind.Free → is_edge t.now ≡ false }
        ensures { self.new ≡ record self.old {
          tiles = swapped t.now.addr
              (record t.now { size = nb; kind = first }
              ∷ record { addr = t.now.addr + nb; size = t.now.size - nb; kind = rest } ∷ [])
              self.old.tiles;
        } }
    {
        let at = t.addr.0;
        let size = nb.0;
        let left = t.size.0 - size;
        put(&mut self.cells, at, Head { size, kind: first });
        put(
            &mut self.cells,
            at + size,
            Head {
                size: left,
                kind: rest,
            },
        );
    }

    /// Makes a chunk and the tile behind it into one. It becomes free only where the second was a chunk.
    pub fn fuse(&mut self, t: &Tile, u: &Tile, kind: TileKind)
        requires row { Row self.old.tiles }
        requires tile { tile_at t.now.addr self.old.tiles ≡ Some t.now }
        requires chunk { is_edge t.now ≡ false }
        requires behind { tile_behind t.now.addr self.old.tiles ≡ Some u.now }
        requires free { kind ≡ TileKind.Free → is_edge u.now ≡ false }
        requires below { t.now.size + u.now.size < 2 ^ 34 }
        ensures { self.new ≡ record self.old {
          tiles = fused t.now.addr
              (record t.now { size = t.now.size + u.now.size; kind = kind }) self.old.tiles;
        } }
    {
        let next = u.addr.0;
        put(&mut self.cells, next, Head::NONE);
        let at = t.addr.0;
        let size = t.size.0 + u.size.0;
        put(&mut self.cells, at, Head { size, kind });
    }

    /// Shifts the border between a chunk and the tile behind it, so that the chunk has `nb` bytes, and gives the address of
    /// the second. Neither is free.
    pub fn shift_border(&mut self, t: &Tile, u: &Tile, nb: Size) -> Addr
        requires row { Row self.old.tiles }
        requires tile { tile_at t.now.addr self.old.tiles ≡ Some t.now }
        requires chunk { is_edge t.now ≡ false }
        requires behind { tile_behind t.now.addr self.old.tiles ≡ Some u.now }
        requires used { is_free t.now ≡ false }
        requires rest { is_free u.now ≡ false }
        requires whole { nb % 16 ≡ 0 }
        requires some { 0 < nb }
        requires less { nb < t.now.size + u.now.size }
        requires below { t.now.size + u.now.size < 2 ^ 34 }
        ensures at { result ≡ t.now.addr + nb }
        ensures tiles { self.new ≡ record self.old {
          tiles = swapped t.now.addr
              (record t.now { size = nb }
              ∷ record u.now { addr = t.now.addr + nb; size = t.now.size + u.now.size - nb } ∷ [])
              (fused t.now.addr
              (record u.now { addr = t.now.addr; size = t.now.size + u.now.size })
              self.old.tiles);
        } }
    {
        let border = u.addr.0;
        put(&mut self.cells, border, Head::NONE);
        let at = t.addr.0;
        let size = nb.0;
        let kind = t.kind;
        put(&mut self.cells, at, Head { size, kind });
        let next = at + size;
        let left = t.size.0 + u.size.0 - size;
        put(
            &mut self.cells,
            next,
            Head {
                size: left,
                kind: u.kind,
            },
        );
        Addr(next)
    }

    /// A tile of a new range, at whose address no tile begins yet.
    pub fn enter(&mut self, t: &Tile)
        requires none { tile_at t.now.addr self.old.tiles ≡ None }
        requires kind { is_free t.now ≡ false }
        requires some { 0 < t.now.size }
        requires fits { IsWordSize t.now.size }
        requires room { IsRoom self.old.extent t.now.addr t.now.size }
        ensures { self.new ≡ record self.old { tiles = entered t.now self.old.tiles } }
    {
        let at = t.addr.0;
        let size = t.size.0;
        let kind = t.kind;
        put(&mut self.cells, at, Head { size, kind });
    }

    /// Takes a tile out of the row.
    pub fn remove(&mut self, t: &Tile)
        requires { tile_at t.now.addr self.old.tiles ≡ Some t.now }
        ensures { self.new ≡ record self.old { tiles = swapped t.now.addr [] self.old.tiles } }
    {
        let at = t.addr.0;
        put(&mut self.cells, at, Head::NONE);
    }

    /// All tiles, by address: one pass from tile to tile, and over the words between regions.
    pub fn tiles(&self, alloc: Global) -> Result<Vec<Tile>, NoMemory>
        requires { Row self.now.tiles }
        ensures { IfOk result (λ v. v.items ≡ self.now.tiles) }
    {
        let cells = &self.cells;
        let mut tiles = Vec::new(alloc);
        let mut from = 0;
        while let Some(at) = cells.next_open(from) {
            let head = read_head(cells, at);
            push_tile(&mut tiles, at, head)?;
            let Some(next) = at.checked_add(head.size.max(1)) else {
                return Ok(tiles);
            };
            from = next;
        }
        Ok(tiles)
    }
}

/// Appends the tile that a head says, if it says one.
fn push_tile(tiles: &mut Vec<Tile>, at: u64, head: Head) -> Result<(), NoMemory>
    ensures { OnOk result (tiles.new.items ≡ tiles.old.items ++ tiles_with at head) }
{
    if head.size > 0 {
        tiles.push(Tile {
            addr: Addr(at),
            size: Size(head.size),
            kind: head.kind,
        })?;
    }
    Ok(())
}
