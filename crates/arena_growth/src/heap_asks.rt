//! The heaps of another arena are asked for.

ghost use Rattle.std.specs.Prelude.{◌≡◌, ◌+◌, ◌-◌, ◌%◌, ◌<◌, ◌≤◌, ◌^◌, true, false, IfOk, OnOk, OnErr, ◌⊎◌};
ghost use Rattle.address_space.specs.declared.asks.Ask.TheVariants as asks;
ghost use Rattle.arena_rules.specs.PlainArena.{is_main};
ghost use Rattle.arena_rules.specs.Heaps.{last_heap, last_length};
ghost use Rattle.arena_rules.specs.HeapPlaces.{IsHeapLength};
ghost use Rattle.arena_rules.specs.Growth.{extension_bytes, first_length};
ghost use Rattle.arena_rules.specs.Rules.{heap_windows_of, windows_of};
ghost use Rattle.consolidate_trim.specs.Lacks.{IsFull};
ghost use Rattle.arena_growth.specs.Asking.{AsksFor};

use address_space::{Answer, Ask, Kernel, Space};
use arena_rules::{Moves, Said};
use chunk_tags::{NoMemory, Size, Tunables, page_up};
use consolidate_trim::{make_room, tell};

/// The shortest heap, in bytes (glibc's `HEAP_MIN_SIZE`).
const SHORTEST_HEAP: u64 = 32_768;

/// What one heap more needs beyond the chunk, in bytes: its header, and a smallest chunk as top.
const BESIDE_CHUNK: u64 = 64;

/// The first length of a heap for a need, in bytes (in glibc's `new_heap`).
pub fn first_length(need: u64, t: &Tunables) -> u64
    requires need { need ≤ 2 ^ 63 + 2 ^ 32 }
    requires pad { t.now.top_pad < 2 ^ 31 }
    requires window { t.now.heap_max ≤ 67108864 }
    ensures { result ≡ first_length t.now need }
{
    let padded = need + t.top_pad;
    page_up(if padded < SHORTEST_HEAP {
        SHORTEST_HEAP
    } else if padded <= t.heap_max {
        padded
    } else if need <= t.heap_max {
        t.heap_max
    } else {
        need
    })
}

/// The length of one heap more for `nb` bytes, in bytes: they, its header, and a smallest chunk as top.
pub fn heap_for(nb: Size, t: &Tunables) -> u64
    requires size { nb ≤ 2 ^ 63 + 16 }
    requires pad { t.now.top_pad < 2 ^ 31 }
    requires window { t.now.heap_max ≤ 67108864 }
    ensures { result ≡ first_length t.now (nb + 64) }
{
    first_length(nb.0 + BESIDE_CHUNK, t)
}

/// By how much the last heap is extended for `nb` bytes: what they need beyond top, in whole pages.
pub fn extension_for<M: Moves>(g: &M, nb: Size) -> u64
    requires { nb ≤ 2 ^ 63 + 16 }
    ensures { result ≡ extension_bytes (M.plain g.now) nb }
{
    let top = match g.top() {
        Some(top) => top.size.0,
        None => 0,
    };
    page_up((nb.0 + 32).saturating_sub(top))
}

/// Makes room for an extension of the last heap, where that doesn't pass its window.
fn make_extension_room<M: Moves>(g: &mut M, growth: u64) -> Result<(), NoMemory>
    requires other { is_main (M.plain g.old) ≡ false }
    requires some { 0 < growth }
    requires pages { growth % 4096 ≡ 0 }
    requires sum { growth ≤ 2 ^ 63 + 2 ^ 32 }
    ensures room { OnOk result
        (last_length (M.plain g.old) + growth ≤ (M.plain g.old).windows.heap_max
        → M.extension_room g.new growth) }
    ensures arena { M.plain g.new ≡ M.plain g.old }
    ensures full { OnErr result (M.extension_room g.new growth → ⊥) }
    ensures window { OnErr result
        (last_length (M.plain g.old) + growth ≤ (M.plain g.old).windows.heap_max) }
{
    if g.last_length() + growth > g.heap_max() {
        return Ok(());
    }
    g.make_extension_room(growth)
}

/// Asks for an extension of the last heap, with room made for it before, and keeps the answer. `false` is the refusal.
pub fn ask_extension<M: Moves, K: Kernel>(
    g: &mut M,
    growth: u64,
    space: &mut Space<K>,
    t: &Tunables,
    said: &mut Vec<Said>,
) -> Result<bool, NoMemory>
    requires other { is_main (M.plain g.old) ≡ false }
    requires heaps { (M.plain g.old).windows ≡ heap_windows_of t.now }
    requires windows { space.old.windows ≡ windows_of t.now }
    requires some { 0 < growth }
    requires pages { growth % 4096 ≡ 0 }
    requires sum { growth ≤ 2 ^ 63 + 2 ^ 32 }
    ensures asked { let a = M.plain g.old in
        AsksFor K.port
        (asks.GrowHeap a.number (last_heap a) (last_length a) (last_length a + growth))
        space.old said.old.items result space.new said.new.items }
    ensures room { IfOk result (λ granted. granted ≡ true → M.extension_room g.new growth) }
    ensures arena { M.plain g.new ≡ M.plain g.old }
    ensures lacks { OnErr result (IsFull said.new
        ⊎ (last_length (M.plain g.old) + growth ≤ (M.plain g.old).windows.heap_max)
        × (M.extension_room g.new growth → ⊥)) }
{
    make_extension_room(g, growth)?;
    make_room(said)?;
    let arena = g.number();
    let heap = g.last_heap();
    let old_len = g.last_length();
    let new_len = old_len + growth;
    let ask = Ask::GrowHeap {
        arena,
        heap,
        old_len,
        new_len,
    };
    match space.grow_heap(arena, heap, old_len, new_len) {
        Answer::Granted => {
            tell(said, &Said::Asked(ask, Answer::Granted));
            Ok(true)
        }
        Answer::Refused => {
            tell(said, &Said::Asked(ask, Answer::Refused));
            Ok(false)
        }
    }
}

/// Makes room for one heap more, where that doesn't pass a window.
fn make_heap_room<M: Moves>(g: &mut M, len: u64) -> Result<(), NoMemory>
    requires other { is_main (M.plain g.old) ≡ false }
    requires some { 4096 ≤ len }
    requires pages { len % 4096 ≡ 0 }
    ensures room { OnOk result
        (len ≤ (M.plain g.old).windows.heap_max
        → last_heap (M.plain g.old) + 1 < (M.plain g.old).windows.heaps
        → M.heap_room g.new len) }
    ensures arena { M.plain g.new ≡ M.plain g.old }
    ensures full { OnErr result (M.heap_room g.new len → ⊥) }
    ensures window { OnErr result (len ≤ (M.plain g.old).windows.heap_max) }
    ensures place { OnErr result (last_heap (M.plain g.old) + 1 < (M.plain g.old).windows.heaps) }
{
    if len > g.heap_max() || g.last_heap() + 1 >= g.heaps() {
        return Ok(());
    }
    g.make_heap_room(len)
}

/// Asks for one heap more, with room made for it before, and keeps the answer. `false` is the refusal.
pub fn ask_heap<M: Moves, K: Kernel>(
    g: &mut M,
    len: u64,
    space: &mut Space<K>,
    t: &Tunables,
    said: &mut Vec<Said>,
) -> Result<bool, NoMemory>
    requires other { is_main (M.plain g.old) ≡ false }
    requires heaps { (M.plain g.old).windows ≡ heap_windows_of t.now }
    requires windows { space.old.windows ≡ windows_of t.now }
    requires some { 4096 ≤ len }
    requires pages { len % 4096 ≡ 0 }
    ensures asked { let a = M.plain g.old in
        AsksFor K.port (asks.NewHeap a.number (last_heap a + 1) len)
        space.old said.old.items result space.new said.new.items }
    ensures room { IfOk result (λ granted. granted ≡ true → M.heap_room g.new len) }
    ensures arena { M.plain g.new ≡ M.plain g.old }
    ensures lacks { OnErr result (IsFull said.new
        ⊎ (len ≤ (M.plain g.old).windows.heap_max)
        × (last_heap (M.plain g.old) + 1 < (M.plain g.old).windows.heaps)
        × (M.heap_room g.new len → ⊥)) }
{
    make_heap_room(g, len)?;
    make_room(said)?;
    let arena = g.number();
    let heap = g.last_heap() + 1;
    let ask = Ask::NewHeap { arena, heap, len };
    match space.new_heap(arena, heap, len) {
        Answer::Granted => {
            tell(said, &Said::Asked(ask, Answer::Granted));
            Ok(true)
        }
        Answer::Refused => {
            tell(said, &Said::Asked(ask, Answer::Refused));
            Ok(false)
        }
    }
}
