//! A search in the arena that a thread chooses, and in another one where that is refused.

ghost use Rattle.std.specs.Prelude.{◌≡◌, ℕ, ◌^◌, ◌≤◌, false, true, Some, None, IsTrue, IfOk, OnErr};
ghost use Rattle.chunk_tags.specs.Tunables.{IsTuned};
ghost use Rattle.arena_rules.specs.Rules.{windows_of};
ghost use Rattle.thread_cache.specs.Caches.{structure_of};
ghost use Rattle.consolidate_trim.specs.Outside.{means};
ghost use Rattle.arena_holds.specs.Places.{Hands, setting, IsServed, IsReached, Carries, standing, in_cache};
ghost use Rattle.arena_holds.specs.Searching.{IsSearch, search as search_rules, search_in, choose_and_search, search_again, search_by_choice, search_reused};
ghost use Rattle.arena_holds.specs.Returning.{IsAllowed};
ghost use Rattle.arena_holds.specs.RunningShort.{RunsShort};
ghost use Rattle.arena_holds.specs.Holding.{Finds, FindsChosen, OpensArena, new_arena_of};

use crate::holding::{Search, search_lent};
use crate::mapping::map_for;
use crate::places::Places;
use address_space::{Kernel, Space};
use arena_choice::Choice;
use arena_core::{Act, Arena, Who};
use chunk_tags::{NoMemory, Tunables};
use thread_cache::Cache;

/// The number of main.
const MAIN: u8 = 0;

/// The arena that was searched, and what that came to.
#[derive(Debug, Drop)]
pub struct Tried {
    pub arena: u8,
    pub search: Search,
}

/// Searches one arena, in one hold.
fn search_in<P: Places, K: Kernel>(
    p: &mut P,
    a: u8,
    who: &Who,
    act: &Act,
    cache: &mut Cache,
    space: &mut Space<K>,
    t: &Tunables,
) -> Result<Search, NoMemory>
    requires writer { P.ways.writes p.old who.now }
    requires act { IsSearch act.now }
    requires tuned { IsTuned t.now }
    requires there { IsTrue (P.ways.there p.old a) }
    requires served { IsServed P.ways t.now (in_cache cache.old) (standing p.old space.old) }
    ensures finds { IfOk result (λ found.
        Finds (setting P.ways (means P.Hold.fast P.Hold.dials K.port) P.Dial.dials) t.now who.now
        (search_in a act.now cache.old) act.now cache.old (standing p.old space.old)
        found.hold found.block cache.new (standing p.new space.new)) }
    ensures short { OnErr result
        (Carries P.ways false (in_cache cache.old) (standing p.old space.old)
        (in_cache cache.new) (standing p.new space.new)) }
    ensures left { OnErr result
        (RunsShort (setting P.ways (means P.Hold.fast P.Hold.dials K.port) P.Dial.dials) t.now
        who.now (search_in a act.now cache.old)
        (standing p.old space.old) (standing p.new space.new)) }
    ensures structure { structure_of cache.new ≡ structure_of cache.old }
{
    let (hold, lent) = p.lock(a);
    let arena = lent.unwrap();
    search_lent(p, hold, arena, who, act, cache, space, t)
}

/// Searches the first arena from one on whose lock is free, and attaches the thread to it (glibc's `reused_arena`). Where the
/// thread chooses afresh, main is to be avoided.
fn search_reused<P: Places, K: Kernel>(
    p: &mut P,
    start: u8,
    fresh: bool,
    who: &Who,
    act: &Act,
    cache: &mut Cache,
    space: &mut Space<K>,
    t: &Tunables,
) -> Result<Tried, NoMemory>
    requires writer { P.ways.writes p.old who.now }
    requires act { IsSearch act.now }
    requires tuned { IsTuned t.now }
    requires there { IsTrue (P.ways.there p.old start) }
    requires listed { IsTrue (P.ways.listed p.old start) }
    requires served { IsServed P.ways t.now (in_cache cache.old) (standing p.old space.old) }
    ensures finds { IfOk result (λ tried.
        FindsChosen (setting P.ways (means P.Hold.fast P.Hold.dials K.port) P.Dial.dials) t.now
        who.now (search_reused who.now.thread fresh start act.now cache.old) act.now
        cache.old (standing p.old space.old) (Some tried) cache.new (standing p.new space.new)) }
    ensures short { OnErr result
        (Carries P.ways false (in_cache cache.old) (standing p.old space.old)
        (in_cache cache.new) (standing p.new space.new)) }
    ensures left { OnErr result
        (RunsShort (setting P.ways (means P.Hold.fast P.Hold.dials K.port) P.Dial.dials) t.now
        who.now (search_reused who.now.thread fresh start act.now cache.old)
        (standing p.old space.old) (standing p.new space.new)) }
    ensures structure { structure_of cache.new ≡ structure_of cache.old }
{
    let avoid = if fresh { Some(MAIN) } else { None };
    let (a, hold, lent) = p.lock_free(start, avoid);
    let arena = lent.unwrap();
    let search = search_lent(p, hold, arena, who, act, cache, space, t)?;
    p.reuse(who.thread, a);
    Ok(Tried { arena: a, search })
}

/// Makes a new arena under a number that the book keeps, for a thread that asks for so many bytes, and attaches the thread to
/// it (glibc's `_int_new_arena`). Where that is refused, or memory is short, the number is given back.
fn open_arena<P: Places, K: Kernel>(
    p: &mut P,
    a: u8,
    who: &Who,
    bytes: u64,
    space: &mut Space<K>,
    t: &Tunables,
) -> Result<bool, NoMemory>
    requires writer { P.ways.writes p.old who.now }
    requires owed { P.ways.owed p.old a }
    requires bytes { bytes ≤ 2 ^ 63 }
    requires tuned { IsTuned t.now }
    requires tunables { P.ways.tunables p.old ≡ t.now }
    requires windows { space.old.windows ≡ windows_of t.now }
    ensures opens { IfOk result (λ opened.
        OpensArena (setting P.ways (means P.Hold.fast P.Hold.dials K.port) P.Dial.dials) t.now
        who.now a bytes (standing p.old space.old) opened (standing p.new space.new)) }
    ensures short { (hands : Hands) → OnErr result
        (Carries P.ways true hands (standing p.old space.old) hands (standing p.new space.new)) }
    ensures whole { P.ways.whole p.new }
    ensures left { OnErr result
        (RunsShort (setting P.ways (means P.Hold.fast P.Hold.dials K.port) P.Dial.dials) t.now
        who.now (new_arena_of a bytes)
        (standing p.old space.old) (standing p.new space.new)) }
{
    match Arena::open(p.allocator(), *who, a, bytes, space, t) {
        Ok(Some(arena)) => {
            p.add(who.thread, arena);
            Ok(true)
        }
        Ok(None) => {
            p.undo(a);
            Ok(false)
        }
        Err(NoMemory) => {
            p.undo(a);
            Err(NoMemory)
        }
    }
}

/// Searches the arena that a choice named. `None` where it is a new one and was refused.
fn search_by_choice<P: Places, K: Kernel>(
    p: &mut P,
    choice: Choice,
    fresh: bool,
    who: &Who,
    act: &Act,
    bytes: u64,
    cache: &mut Cache,
    space: &mut Space<K>,
    t: &Tunables,
) -> Result<Option<Tried>, NoMemory>
    requires writer { P.ways.writes p.old who.now }
    requires allowed { IsAllowed P.ways p.old choice }
    requires act { IsSearch act.now }
    requires bytes { bytes ≤ 2 ^ 63 }
    requires tuned { IsTuned t.now }
    requires reached { IsReached P.ways t.now (in_cache cache.old) (standing p.old space.old) }
    ensures finds { IfOk result (λ tried.
        FindsChosen (setting P.ways (means P.Hold.fast P.Hold.dials K.port) P.Dial.dials) t.now
        who.now (search_by_choice who.now.thread fresh bytes act.now cache.old choice) act.now
        cache.old (standing p.old space.old) tried cache.new (standing p.new space.new)) }
    ensures short { OnErr result
        (Carries P.ways false (in_cache cache.old) (standing p.old space.old)
        (in_cache cache.new) (standing p.new space.new)) }
    ensures left { OnErr result
        (RunsShort (setting P.ways (means P.Hold.fast P.Hold.dials K.port) P.Dial.dials) t.now
        who.now (search_by_choice who.now.thread fresh bytes act.now cache.old choice)
        (standing p.old space.old) (standing p.new space.new)) }
    ensures whole { P.ways.whole p.new }
    ensures structure { structure_of cache.new ≡ structure_of cache.old }
{
    match choice {
        Choice::Attached(a) | Choice::Free(a) => {
            let search = search_in(p, a, who, act, cache, space, t)?;
            Ok(Some(Tried { arena: a, search }))
        }
        Choice::New(a) => {
            if !open_arena(p, a, who, bytes, space, t)? {
                return Ok(None);
            }
            let search = search_in(p, a, who, act, cache, space, t)?;
            Ok(Some(Tried { arena: a, search }))
        }
        Choice::Reuse { start } => {
            let tried = search_reused(p, start, fresh, who, act, cache, space, t)?;
            Ok(Some(tried))
        }
    }
}

/// Chooses an arena for a thread, and searches it. `None` where none could be had.
fn choose_and_search<P: Places, K: Kernel>(
    p: &mut P,
    fresh: bool,
    who: &Who,
    act: &Act,
    bytes: u64,
    cache: &mut Cache,
    space: &mut Space<K>,
    t: &Tunables,
) -> Result<Option<Tried>, NoMemory>
    requires writer { P.ways.writes p.old who.now }
    requires act { IsSearch act.now }
    requires bytes { bytes ≤ 2 ^ 63 }
    requires tuned { IsTuned t.now }
    requires served { IsServed P.ways t.now (in_cache cache.old) (standing p.old space.old) }
    ensures finds { IfOk result (λ tried.
        FindsChosen (setting P.ways (means P.Hold.fast P.Hold.dials K.port) P.Dial.dials) t.now
        who.now (choose_and_search t.now who.now.thread fresh bytes act.now cache.old) act.now
        cache.old (standing p.old space.old) tried cache.new (standing p.new space.new)) }
    ensures short { OnErr result
        (Carries P.ways false (in_cache cache.old) (standing p.old space.old)
        (in_cache cache.new) (standing p.new space.new)) }
    ensures left { OnErr result
        (RunsShort (setting P.ways (means P.Hold.fast P.Hold.dials K.port) P.Dial.dials) t.now
        who.now (choose_and_search t.now who.now.thread fresh bytes act.now cache.old)
        (standing p.old space.old) (standing p.new space.new)) }
    ensures structure { structure_of cache.new ≡ structure_of cache.old }
{
    let choice = p.choose(who.thread, fresh, t);
    search_by_choice(p, choice, fresh, who, act, bytes, cache, space, t)
}

/// What another arena was refused is searched for in main, and what main was refused in one that is chosen afresh.
fn search_again<P: Places, K: Kernel>(
    p: &mut P,
    refused: u8,
    who: &Who,
    act: &Act,
    bytes: u64,
    cache: &mut Cache,
    space: &mut Space<K>,
    t: &Tunables,
) -> Result<Search, NoMemory>
    requires writer { P.ways.writes p.old who.now }
    requires act { IsSearch act.now }
    requires bytes { bytes ≤ 2 ^ 63 }
    requires tuned { IsTuned t.now }
    requires served { IsServed P.ways t.now (in_cache cache.old) (standing p.old space.old) }
    ensures finds { IfOk result (λ found.
        Finds (setting P.ways (means P.Hold.fast P.Hold.dials K.port) P.Dial.dials) t.now who.now
        (search_again t.now who.now.thread bytes refused act.now cache.old) act.now
        cache.old (standing p.old space.old) found.hold found.block
        cache.new (standing p.new space.new)) }
    ensures short { OnErr result
        (Carries P.ways false (in_cache cache.old) (standing p.old space.old)
        (in_cache cache.new) (standing p.new space.new)) }
    ensures left { OnErr result
        (RunsShort (setting P.ways (means P.Hold.fast P.Hold.dials K.port) P.Dial.dials) t.now
        who.now (search_again t.now who.now.thread bytes refused act.now cache.old)
        (standing p.old space.old) (standing p.new space.new)) }
    ensures structure { structure_of cache.new ≡ structure_of cache.old }
{
    if refused != MAIN {
        return search_in(p, MAIN, who, act, cache, space, t);
    }
    match choose_and_search(p, true, who, act, bytes, cache, space, t)? {
        Some(tried) => Ok(tried.search),
        None => Ok(map_for(p, act, space)),
    }
}

/// Searches for a chunk for a thread: in the arena that it chooses, and where that is refused in another one (glibc's
/// `arena_get` and `arena_get_retry` as `__libc_malloc` uses them). The arena is chosen for `bytes`, at the second try for
/// `again`. `NoMemory` comes only of a step that asks for memory; after it no other block is claimed, and what others have
/// stays given out.
pub fn search<P: Places, K: Kernel>(
    p: &mut P,
    who: &Who,
    act: &Act,
    bytes: u64,
    again: u64,
    cache: &mut Cache,
    space: &mut Space<K>,
    t: &Tunables,
) -> Result<Search, NoMemory>
    requires writer { P.ways.writes p.old who.now }
    requires act { IsSearch act.now }
    requires bytes { bytes ≤ 2 ^ 63 }
    requires again { again ≤ 2 ^ 63 }
    requires tuned { IsTuned t.now }
    requires served { IsServed P.ways t.now (in_cache cache.old) (standing p.old space.old) }
    ensures finds { IfOk result (λ found.
        Finds (setting P.ways (means P.Hold.fast P.Hold.dials K.port) P.Dial.dials) t.now who.now
        (search_rules t.now who.now.thread bytes again act.now cache.old) act.now
        cache.old (standing p.old space.old) found.hold found.block
        cache.new (standing p.new space.new)) }
    ensures short { OnErr result
        (Carries P.ways false (in_cache cache.old) (standing p.old space.old)
        (in_cache cache.new) (standing p.new space.new)) }
    ensures left { OnErr result
        (RunsShort (setting P.ways (means P.Hold.fast P.Hold.dials K.port) P.Dial.dials) t.now
        who.now (search_rules t.now who.now.thread bytes again act.now cache.old)
        (standing p.old space.old) (standing p.new space.new)) }
    ensures structure { structure_of cache.new ≡ structure_of cache.old }
{
    match choose_and_search(p, false, who, act, bytes, cache, space, t)? {
        None => Ok(map_for(p, act, space)),
        Some(Tried { arena, search }) => {
            if search.block.is_some() {
                return Ok(search);
            }
            search_again(p, arena, who, act, again, cache, space, t)
        }
    }
}
