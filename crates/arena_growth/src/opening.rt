//! Another arena is opened.

ghost use Rattle.std.specs.Prelude.{◌≡◌, ◌%◌, ◌+◌, ◌^◌, ◌<◌, ◌≤◌, nat_le, true, IfOk, IfSome, IsSome};
ghost use Rattle.chunk_tags.specs.Tunables.{IsTuned};
ghost use Rattle.address_space.specs.declared.asks.Ask.TheVariants as asks;
ghost use Rattle.arena_rules.specs.PlainArena.{IsSound};
ghost use Rattle.arena_rules.specs.Heaps.{opened_arena};
ghost use Rattle.arena_rules.specs.Growth.{first_length};
ghost use Rattle.arena_rules.specs.Rules.{windows_of};
ghost use Rattle.arena_growth.specs.Asking.{AsksFor};
ghost use Rattle.arena_growth.specs.FirstHeap.{AsksFirst, Opens, closed_arena};

use crate::heap_asks::first_length;
use address_space::{Answer, Ask, Kernel, Space};
use arena_rules::{Moves, Said};
use chunk_tags::{NoMemory, Tunables};
use consolidate_trim::{make_room, tell};
use std::alloc::Global;

/// What heap 0 needs beside a request, in bytes: its header, the arena's record, and what aligns a chunk behind them (in
/// glibc's `_int_new_arena`).
const BESIDE_REQUEST: u64 = 2248;

/// Asks for heap 0 of an arena, and keeps the answer. `false` is the refusal.
fn ask_first<K: Kernel>(
    number: u8,
    len: u64,
    space: &mut Space<K>,
    said: &mut Vec<Said>,
) -> Result<bool, NoMemory>
    ensures { AsksFor K.port (asks.NewHeap number 0 len) space.old said.old.items
        result space.new said.new.items }
{
    make_room(said)?;
    let ask = Ask::NewHeap {
        arena: number,
        heap: 0,
        len,
    };
    match space.new_heap(number, 0, len) {
        Answer::Granted => {
            tell(said, &Said::Asked(ask, Answer::Granted));
            Ok(true)
        }
        Answer::Refused => {
            tell(said, &Said::Asked(ask, Answer::Refused));
            Ok(false)
        }
    }
}

/// The arena as it is with a heap 0 of this length, where that doesn't pass its window.
fn with_first_heap<M: Moves + Drop>(
    alloc: Global,
    number: u8,
    len: u64,
    t: &Tunables,
) -> Result<Option<Box<M>>, NoMemory>
    requires other { 0 < number }
    requires number { number < 64 }
    requires tuned { IsTuned t.now }
    requires some { 4096 ≤ len }
    requires pages { len % 4096 ≡ 0 }
    ensures some { IfOk result (λ o. nat_le len t.now.heap_max ≡ true → IsSome o) }
    ensures arena { IfOk result (λ o. IfSome o (λ g.
        M.plain g.value ≡ opened_arena (closed_arena t.now number) len)) }
    ensures sound { IfOk result (λ o. IfSome o (λ g. IsSound (M.plain g.value))) }
{
    if len > t.heap_max {
        return Ok(None);
    }
    let ground = M::open(alloc, number, t.heap_max, t.heaps, len)?;
    Ok(Some(Box::new(alloc, ground)?))
}

/// Asks for heap 0 with a need, with the arena made before. `None` is the refusal.
fn open_for<M: Moves + Drop, K: Kernel>(
    alloc: Global,
    number: u8,
    need: u64,
    space: &mut Space<K>,
    t: &Tunables,
    said: &mut Vec<Said>,
) -> Result<Option<Box<M>>, NoMemory>
    requires other { 0 < number }
    requires number { number < 64 }
    requires tuned { IsTuned t.now }
    requires need { need ≤ 2 ^ 63 + 2 ^ 32 }
    requires windows { space.old.windows ≡ windows_of t.now }
    ensures { AsksFirst (λ b. M.plain b.value) K.port t.now number need space.old said.old.items
        result space.new said.new.items }
{
    let len = first_length(need, t);
    let ground = with_first_heap(alloc, number, len, t)?;
    if ask_first(number, len, space, said)? {
        Ok(ground)
    } else {
        Ok(None)
    }
}

/// Opens an arena for a thread that asks for so many bytes: it asks for heap 0 for them, and where that is refused for the
/// least heap 0. `None` exactly where both were refused.
pub fn open_ground<M: Moves + Drop, K: Kernel>(
    alloc: Global,
    number: u8,
    bytes: u64,
    space: &mut Space<K>,
    t: &Tunables,
    said: &mut Vec<Said>,
) -> Result<Option<Box<M>>, NoMemory>
    requires other { 0 < number }
    requires number { number < 64 }
    requires tuned { IsTuned t.now }
    requires bytes { bytes ≤ 2 ^ 63 }
    requires windows { space.old.windows ≡ windows_of t.now }
    ensures { Opens (λ b. M.plain b.value) K.port t.now number bytes space.old said.old.items
        result space.new said.new.items }
{
    match open_for(alloc, number, bytes + BESIDE_REQUEST, space, t, said)? {
        Some(ground) => Ok(Some(ground)),
        None => open_for(alloc, number, BESIDE_REQUEST, space, t, said),
    }
}
