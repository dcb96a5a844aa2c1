//! Words: heads of tiles, and feet of free ones.

ghost use Rattle.std.specs.Prelude.{◌≡◌, ◌+◌, ◌/◌, ◌*◌, ◌%◌, ◌^◌, ◌<◌, true};
ghost use Rattle.part_words.specs.Extents.{IsOpen};
ghost use Rattle.part_words.specs.Parts.{update, extent_of};
ghost use Rattle.chunk_image.specs.Rows.{IsWordSize};
ghost use Rattle.chunk_image.specs.Heads.{head_at, head_in, heads_of, foot_at, feet_of, is_free_head, kind_of as kind_numbered, with_foot, IsKept, CanStand};

use chunk_tags::TileKind;
use part_words::{Word, Words};

/// What is kept for 16 bytes of address space: the head of the tile that begins there, and the foot of the free one that
/// ends there (glibc's `mchunk_size`, and the `mchunk_prev_size` of the same chunk).
#[derive(Clone, Copy, Debug, PartialEq, Eq)]
pub(crate) struct Cell {
    /// The size in units of 16 bytes, times 4, and the number of the kind; 0 where no tile begins.
    head: u32,
    /// The size in units of 16 bytes; 0 where no free tile ends.
    foot: u32,
}

impl Word for Cell {
    ghost use Rattle.chunk_image.specs.Heads.{no_cell};

    ghost UNWRITTEN = { no_cell };

    /// No tile begins or ends here.
    const UNWRITTEN: Cell = Cell { head: 0, foot: 0 };

    /// Whether no tile begins or ends here.
    fn is_unwritten(&self) -> bool {
        self.head == 0 && self.foot == 0
    }
}

/// The words of a page: those of 256 bytes, in which most often one tile begins.
pub(crate) const PAGE: usize = 16;

/// What stands at the beginning of a tile (glibc's size word, with its flags).
#[derive(Clone, Copy, Debug, PartialEq, Eq)]
pub(crate) struct Head {
    /// The bytes of the tile; 0 where none begins.
    pub(crate) size: u64,
    pub(crate) kind: TileKind,
}

impl Head {
    /// No tile begins here.
    pub(crate) const NONE: Head = Head {
        size: 0,
        kind: TileKind::Used,
    };

    /// Whether a free tile begins here.
    fn is_free(&self) -> bool
        ensures { result ≡ is_free_head self.now }
    {
        self.size > 0 && self.kind == TileKind::Free
    }

    /// The head in one word.
    fn packed(&self) -> u32
        requires { IsWordSize self.now.size }
        ensures { head_in result ≡ self.now }
    {
        let number = match self.kind {
            TileKind::Used => 0,
            TileKind::Free => 1,
            TileKind::Top => 2,
            TileKind::Fence => 3,
        };
        (self.size / 16) as u32 * 4 + number
    }
}

/// The kind with a number.
fn kind_of(number: u32) -> TileKind
    ensures { result ≡ kind_numbered number }
{
    match number {
        0 => TileKind::Used,
        1 => TileKind::Free,
        2 => TileKind::Top,
        _ => TileKind::Fence,
    }
}

/// The head that a word says.
fn unpacked(word: u32) -> Head
    ensures { result ≡ head_in word }
{
    Head {
        size: u64::from(word / 4) * 16,
        kind: kind_of(word % 4),
    }
}

/// The head of an address.
pub(crate) fn read_head(cells: &Words<Cell, PAGE>, at: u64) -> Head
    requires { IsOpen (extent_of (heads_of cells.now)) at }
    ensures { result ≡ head_at (heads_of cells.now) at }
{
    unpacked(cells.get(at).head)
}

/// The foot of an address.
pub(crate) fn read_foot(cells: &Words<Cell, PAGE>, at: u64) -> u64
    requires { IsOpen (extent_of (feet_of cells.now)) at }
    ensures { result ≡ foot_at (feet_of cells.now) at }
{
    u64::from(cells.get(at).foot) * 16
}

/// Writes the head of an address. The feet go with it: that of the tile that was there, if it was free, is cleared. The word
/// of the address is read once.
pub(crate) fn put(cells: &mut Words<Cell, PAGE>, at: u64, head: Head)
    requires kept { IsKept (heads_of cells.old) (feet_of cells.old) }
    requires stands { CanStand (heads_of cells.old) at head }
    ensures heads { head_at (heads_of cells.new) ≡ update (head_at (heads_of cells.old)) at head }
    ensures extent { extent_of (heads_of cells.new) ≡ extent_of (heads_of cells.old) }
    ensures kept { IsKept (heads_of cells.new) (feet_of cells.new) }
{
    let cell = cells.get(at);
    cells.set(
        at,
        Cell {
            head: head.packed(),
            ..cell
        },
    );
    write_foot(cells, at, unpacked(cell.head), 0);
    write_foot(cells, at, head, head.size);
}

/// Writes a value where the foot of a tile is, if that is free.
fn write_foot(cells: &mut Words<Cell, PAGE>, at: u64, head: Head, value: u64)
    requires word { is_free_head head ≡ true
        → IsOpen (extent_of (feet_of cells.old)) (at + head.size) × (at + head.size < 2 ^ 64) }
    requires fits { IsWordSize value }
    ensures heads { head_at (heads_of cells.new) ≡ head_at (heads_of cells.old) }
    ensures feet { foot_at (feet_of cells.new) ≡ with_foot head at value (foot_at (feet_of cells.old)) }
    ensures extent { extent_of cells.new ≡ extent_of cells.old }
{
    if head.is_free() {
        let end = at + head.size;
        let head = cells.get(end).head;
        let foot = (value / 16) as u32;
        cells.set(end, Cell { head, foot });
    }
}
