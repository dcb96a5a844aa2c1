//! Changes of one list: at its end, before a chunk, and of one chunk for another.

ghost use Rattle.std.specs.Prelude.{◌≡◌, ℕ, ◌<◌, ◌≤◌, List, [], ◌∷◌, ◌++◌, slice_set};
ghost use Rattle.part_words.specs.Extents.{IsOpen};
ghost use Rattle.ordinary_bins.specs.Lists.{bin_count, list_at, times_listed};

use chunk_tags::Addr;
use ordinary_bins::LinkWords;

/// Puts a chunk at the end of a bin.
pub(crate) fn push_back(links: &mut LinkWords, bin: u8, at: Addr)
    requires used { 0 < bin }
    requires bin { bin < bin_count }
    requires high { bin_count ≤ at }
    requires word { IsOpen links.old.extent at }
    requires unlisted { times_listed at links.old.lists ≡ 0 }
    ensures lists { links.new.lists
        ≡ slice_set links.old.lists bin (list_at bin links.old.lists ++ at ∷ []) }
    ensures extent { links.new.extent ≡ links.old.extent }
{
    match links.last(bin) {
        None => links.push_front(bin, at),
        Some(last) => links.insert_behind(last, at),
    }
}

/// Puts a chunk before another one of a bin.
pub(crate) fn insert_before(links: &mut LinkWords, bin: u8, next: Addr, at: Addr)
    requires used { 0 < bin }
    requires bin { bin < bin_count }
    requires next { 1 ≤ times_listed next links.old.lists }
    requires high { bin_count ≤ at }
    requires word { IsOpen links.old.extent at }
    requires unlisted { times_listed at links.old.lists ≡ 0 }
    ensures lists { (front back : List ℕ) → list_at bin links.old.lists ≡ front ++ next ∷ back
        → links.new.lists ≡ slice_set links.old.lists bin (front ++ at ∷ next ∷ back) }
    ensures extent { links.new.extent ≡ links.old.extent }
{
    links.laws();
    match links.before(next) {
        None => links.push_front(bin, at),
        Some(before) => links.insert_behind(before, at),
    }
}

/// Puts a chunk in the place of a listed one.
pub(crate) fn replace(links: &mut LinkWords, at: Addr, other: Addr)
    requires listed { 1 ≤ times_listed at links.old.lists }
    requires high { bin_count ≤ other }
    requires word { IsOpen links.old.extent other }
    requires unlisted { times_listed other links.old.lists ≡ 0 }
    ensures lists { (bin : ℕ) (front back : List ℕ) → bin < bin_count
        → list_at bin links.old.lists ≡ front ++ at ∷ back
        → links.new.lists ≡ slice_set links.old.lists bin (front ++ other ∷ back) }
    ensures extent { links.new.extent ≡ links.old.extent }
{
    links.laws();
    links.insert_behind(at, other);
    links.laws();
    links.unlink(at);
}
