//! Top is trimmed.

ghost use Rattle.std.specs.Prelude.{◌≡◌, ◌-◌, false, length, IsTrue};
ghost use Rattle.arena_rules.specs.PlainArena.{Plain, IsSound, is_main};
ghost use Rattle.arena_rules.specs.Rules.{Rules, Stop};
ghost use Rattle.arena_rules.specs.Trim.{dropped_heaps, heap_cut, is_enough_end, main_spare, spare_bytes, trimmed_heaps};
ghost use Rattle.consolidate_trim.specs.Trims.{TrimsMain, TrimsHeaps};

use address_space::{Back, Kernel, Space};
use arena_rules::{HeapEnd, Moves};
use chunk_tags::{Tunables, page_down};

/// The bytes of top that a trim leaves, beside the pad: a smallest chunk, and the byte that makes it more than that.
const KEPT: u64 = 33;

/// What the end of a heap needs beside the pad, where the next heap is to be dropped: a smallest chunk, and a page.
const ENOUGH: u128 = 32 + 4096;

/// The bytes that top can give back at this threshold.
fn spare_of_top<M: Moves>(g: &M, threshold: u64, t: &Tunables) -> u64
    ensures { result ≡ spare_bytes t.now (M.plain g.now) threshold }
{
    match g.top() {
        Some(top) if top.size.0 >= threshold => {
            page_down(top.size.0.saturating_sub(KEPT).saturating_sub(t.top_pad))
        }
        _ => 0,
    }
}

/// The bytes that main can give back at this threshold.
fn spare<M: Moves>(g: &M, threshold: u64, t: &Tunables) -> u64
    ensures { result ≡ main_spare t.now (M.plain g.now) threshold }
{
    let Some(top) = g.top() else { return 0 };
    let end = g.break_at();
    if end < top.addr.0 || end - top.addr.0 != top.size.0 {
        return 0;
    }
    spare_of_top(g, threshold, t)
}

/// Gives the end of main's top back, whole pages behind the pad, where top ends at the break and has at least the
/// threshold (glibc's `systrim`). Gives the bytes; 0 exactly where nothing is given back.
pub fn trim_main<M: Moves, K: Kernel>(
    g: &mut M,
    threshold: u64,
    space: &mut Space<K>,
    t: &Tunables,
) -> u64
    requires sound { IsSound (M.plain g.old) }
    requires main { IsTrue (is_main (M.plain g.old)) }
    ensures { TrimsMain K.port t.now threshold
        (M.plain g.old) space.old result (M.plain g.new) space.new }
{
    let bytes = spare(g, threshold, t);
    if bytes == 0 {
        return 0;
    }
    let end = g.break_at();
    g.cut_main(bytes);
    space.back(Back::Break {
        old: end,
        new: end - bytes,
    });
    bytes
}

/// Whether the end of a heap is enough for the next one to be dropped.
fn is_enough(end: &HeapEnd, t: &Tunables) -> bool
    ensures { result ≡ is_enough_end t.now end.now }
{
    let HeapEnd {
        fence,
        before,
        room,
    } = *end;
    let free = match before {
        Some(tile) => tile.size.0,
        None => 0,
    };
    let need = u128::from(t.top_pad) + ENOUGH;
    need.saturating_sub(u128::from(room))
        .saturating_sub(u128::from(free))
        <= u128::from(fence.size.0)
}

/// Drops heaps of another arena while top is the first chunk of its heap and the end of the heap before is enough (the loop
/// of glibc's `heap_trim`).
fn drop_heaps<M: Moves, K: Kernel>(g: &mut M, space: &mut Space<K>, t: &Tunables)
    requires sound { IsSound (M.plain g.old) }
    requires other { is_main (M.plain g.old) ≡ false }
    ensures { (go : Plain → Rules Plain) → let a = M.plain g.old in let b = M.plain g.new in
        TrimsHeaps K.port (dropped_heaps (length a.tiles) t.now a go) a space.old (go b) b space.new }
{
    while let Some(end) = g.end_before() {
        if !is_enough(&end, t) {
            break;
        }
        let arena = g.number();
        let heap = g.last_heap();
        let len = g.last_length();
        g.drop_heap(&end);
        space.back(Back::DropHeap { arena, heap, len });
    }
}

/// Gives the end of the last heap back, where top has at least the threshold (the end of glibc's `heap_trim`).
fn shorten<M: Moves, K: Kernel>(g: &mut M, threshold: u64, space: &mut Space<K>, t: &Tunables)
    requires sound { IsSound (M.plain g.old) }
    requires other { is_main (M.plain g.old) ≡ false }
    ensures { let a = M.plain g.old in let b = M.plain g.new in
        TrimsHeaps K.port (heap_cut t.now threshold a) a space.old (Stop b) b space.new }
{
    let bytes = spare_of_top(g, threshold, t);
    if bytes == 0 {
        return;
    }
    let arena = g.number();
    let heap = g.last_heap();
    let old_len = g.last_length();
    g.shorten_heap(bytes);
    space.back(Back::ShrinkHeap {
        arena,
        heap,
        old_len,
        new_len: old_len - bytes,
    });
}

/// Drops what heaps of another arena can be dropped, and gives the end of the last one back (glibc's `heap_trim`). Gives the
/// bytes.
pub fn trim_heap<M: Moves, K: Kernel>(
    g: &mut M,
    threshold: u64,
    space: &mut Space<K>,
    t: &Tunables,
) -> u64
    requires sound { IsSound (M.plain g.old) }
    requires other { is_main (M.plain g.old) ≡ false }
    ensures trims { let a = M.plain g.old in let b = M.plain g.new in
        TrimsHeaps K.port (trimmed_heaps t.now a threshold) a space.old (Stop b) b space.new }
    ensures bytes { result ≡ (M.plain g.old).system - (M.plain g.new).system }
{
    let before = g.system();
    drop_heaps(g, space, t);
    shorten(g, threshold, space, t);
    before - g.system()
}
