//! Addresses, sizes, and what follows from a size.

ghost use Rattle.std.specs.Prelude.{◌≡◌, ◌+◌, ◌-◌, ◌/◌, ◌%◌, ◌^◌, ◌<◌, ◌≤◌};
ghost use Rattle.chunk_tags.specs.Sizes.{padded_request, max_cached, cache_index_of, cached_size_at, is_small_size, small_index_of, large_index_of, fast_index_of, IsChunkSize};
ghost use Rattle.chunk_tags.specs.Pages.{page_up_of, page_down_of};

use std::marker::Model;

/// The address of a chunk, in bytes. The address that a user has is 16 more.
#[derive(Clone, Copy, Debug, PartialEq, Eq, PartialOrd, Ord)]
pub struct Addr(pub u64);

impl Model for Addr {
    ghost use Rattle.std.specs.Prelude.{ℕ};

    ghost Value = { ℕ };

    ghost view = { λ a. a.0 };

    ghost inverse = { λ n. record { 0 = n } };
}

/// The size of a chunk, in bytes, its size word included.
#[derive(Clone, Copy, Debug, PartialEq, Eq, PartialOrd, Ord)]
pub struct Size(pub u64);

impl Model for Size {
    ghost use Rattle.std.specs.Prelude.{ℕ};

    ghost Value = { ℕ };

    ghost view = { λ s. s.0 };

    ghost inverse = { λ n. record { 0 = n } };
}

/// The smallest chunk, in bytes (glibc's `MINSIZE`).
pub const MIN_CHUNK: u64 = 32;

/// The largest request in bytes, glibc's `PTRDIFF_MAX`.
pub const MAX_REQUEST: u64 = 0x7fff_ffff_ffff_ffff;

/// The size of the chunk for a request of `r` bytes: glibc's `checked_request2size`. `None` exactly where
/// the request is above `MAX_REQUEST`.
pub fn request_size(r: u64) -> Option<Size>
    ensures { result ≡ padded_request r }
{
    if r > MAX_REQUEST {
        return None;
    }
    let padded = r + 23;
    if padded < 32 {
        Some(Size(32))
    } else {
        Some(Size((padded >> 4) << 4))
    }
}

/// The largest size of a cached chunk: that of a request of glibc's `MAX_TCACHE_SIZE`.
pub const MAX_CACHED: Size = Size(1040);

/// The index of the cache list for chunks of this size: glibc's `csize2tidx`.
pub fn cache_index(s: Size) -> u8
    requires { s ≤ max_cached }
    ensures { result ≡ cache_index_of s }
{
    ((s.0.saturating_sub(32) + 15) >> 4) as u8
}

/// The size of the chunks in the cache list at this index: glibc's `tidx2usize`, with the size word.
pub fn cached_size(index: u8) -> Size
    requires { index < 64 }
    ensures { result ≡ cached_size_at index }
{
    Size(32 + (u64::from(index) << 4))
}

/// Whether chunks of this size belong to a small bin: glibc's `in_smallbin_range`.
pub fn is_small(s: Size) -> bool
    ensures { result ≡ is_small_size s }
{
    s.0 < 1024
}

/// The index of the small bin of this size: glibc's `smallbin_index`.
pub fn small_index(s: Size) -> u8
    requires { s < 1024 }
    ensures { result ≡ small_index_of s }
{
    (s.0 >> 4) as u8
}

/// The index of the large bin of this size: glibc's `largebin_index_64`.
pub fn large_index(s: Size) -> u8
    requires { 1024 ≤ s }
    ensures { result ≡ large_index_of s }
{
    let size = s.0;
    if size >> 6 <= 48 {
        (48 + (size >> 6)) as u8
    } else if size >> 9 <= 20 {
        (91 + (size >> 9)) as u8
    } else if size >> 12 <= 10 {
        (110 + (size >> 12)) as u8
    } else if size >> 15 <= 4 {
        (119 + (size >> 15)) as u8
    } else if size >> 18 <= 2 {
        (124 + (size >> 18)) as u8
    } else {
        126
    }
}

/// The index of the fast bin of this size: glibc's `fastbin_index`.
pub fn fast_index(s: Size) -> u8
    requires chunk { IsChunkSize s }
    requires fast { s ≤ 176 }
    ensures { result ≡ fast_index_of s }
{
    ((s.0 >> 4) - 2) as u8
}

/// The bytes of a page.
pub const PAGE: u64 = 4096;

/// The length of whole pages for so many bytes.
pub fn page_up(bytes: u64) -> u64
    requires { bytes + 4095 < 2 ^ 64 }
    ensures { result ≡ page_up_of bytes }
{
    ((bytes + (PAGE - 1)) >> 12) << 12
}

/// The length of the whole pages in so many bytes.
pub fn page_down(bytes: u64) -> u64
    ensures { result ≡ page_down_of bytes }
{
    (bytes >> 12) << 12
}
