//! The whole pages inside free chunks.

ghost use Rattle.std.specs.Prelude.{◌≡◌, ◌+◌, ◌*◌, ◌<◌, ◌≤◌, ◌^◌, IfOk, OnSome, None, sum_by};
ghost use Rattle.std.specs.List.{All, AllByRecursion};
ghost use Rattle.chunk_tags.specs.Tiles.{Row, end_of};
ghost use Rattle.page_trim.specs.FreePages.{free_pages, pages_in, pages_of, listed_range, IsIdle};

use chunk_tags::{Addr, NoMemory, PAGE, Tile, TileKind, page_down, page_up};
use std::alloc::Global;

/// The bytes in front of a free chunk that the allocator needs: its head and the links of its bins.
const WORDS_OF_FREE: u64 = 48;

/// Pages side by side: the address of the first, and how many there are.
#[derive(Clone, Copy, Debug, PartialEq, Eq)]
pub struct PageRange {
    pub addr: Addr,
    pub pages: u64,
}

/// The whole pages of a tile, where it is free and has any.
fn range_in(t: &Tile) -> Option<PageRange>
    requires { end_of t.now ≤ 2 ^ 63 }
    ensures { pages_of t.now ≡ listed_range result }
{
    if t.kind != TileKind::Free {
        return None;
    }
    let start = page_up(t.addr.0 + WORDS_OF_FREE);
    let end = page_down(t.addr.0 + t.size.0);
    if end <= start {
        return None;
    }
    Some(PageRange {
        addr: Addr(start),
        pages: (end - start) / PAGE,
    })
}

/// The whole pages inside free tiles, by address (the part of glibc's `mtrim` that calls madvise).
#[tactic(auto, unfolding(crate::specs::FreePages::free_pages))]
pub fn free_pages(alloc: Global, tiles: &[Tile]) -> Result<Vec<PageRange>, NoMemory>
    requires { All (λ t. end_of t ≤ 2 ^ 63) tiles.now }
    ensures pages { IfOk result (λ v. v.items ≡ free_pages tiles.now) }
{
    let mut ranges = Vec::new(alloc);
    for t in tiles {
        if let Some(range) = range_in(t) {
            ranges.push(range)?;
        }
    }
    Ok(ranges)
}

/// How many pages ranges have.
#[tactic(auto, unfolding(crate::specs::FreePages::pages_in))]
pub(crate) fn count_pages(ranges: &[PageRange]) -> u64
    requires { pages_in ranges.now < 2 ^ 64 }
    ensures { result ≡ pages_in ranges.now }
{
    let mut pages = 0;
    for range in ranges {
        pages += range.pages;
    }
    pages
}
