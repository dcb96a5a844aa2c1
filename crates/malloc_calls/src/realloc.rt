//! realloc of a name's block.

ghost use Rattle.std.specs.Prelude.{◌≡◌, ℕ, ◌^◌, ◌≤◌, true, Some, None, Ok, IsSome, IfOk, IfErr, OnErr, is_ok};
ghost use Rattle.chunk_tags.specs.Sizes.{IsRequestSize, chunk_size_of, padded_request};
ghost use Rattle.chunk_tags.specs.Tunables.{IsTuned};
ghost use Rattle.address_space.specs.Ports.{Rose};
ghost use Rattle.address_space.specs.Spaces.{space_refusals};
ghost use Rattle.chunk_tags.specs.declared.block.Block.{Block as Piece};
ghost use Rattle.consolidate_trim.specs.Outside.{means};
ghost use Rattle.block_names.specs.Blocks.{IsHeld};
ghost use Rattle.block_names.specs.Names.{block_at};
ghost use Rattle.arena_holds.specs.Calls.{Done, then_call};
ghost use Rattle.own_blocks.specs.Calls.{FitsName, HoldsStill};
ghost use Rattle.own_blocks.specs.Frees.{HoldsOrLoses};
ghost use Rattle.own_blocks.specs.LeftCalls.{IsLeft};
ghost use Rattle.malloc_calls.specs.Reallocs.{realloc_call, realloc_in, resettled, IfAnswered, has_what_it_needs};
ghost use Rattle.malloc_calls.specs.Resettling.{Resettles};
ghost use Rattle.arena_holds.specs.Holding.{ResizesShort};
ghost use Rattle.own_blocks.specs.declared.reply.Reply.TheVariants.{NotYours, Null, Freed};
ghost use Rattle.own_blocks.specs.declared.reply.To.TheVariants.{Unmapped};
ghost use Rattle.own_blocks.specs.declared.reply.Why.TheVariants.{Big, Refused};
ghost use Rattle.arena_holds.specs.Going.{Does};
ghost use Rattle.arena_holds.specs.Places.{setting, IsServed, Carries, standing, both_of, in_cache};
ghost use Rattle.own_blocks.specs.Own.{in_own};
ghost use Rattle.own_blocks.specs.Structure.{StaysOpen};
ghost use Rattle.thread_cache.specs.Caches.{is_open};

use crate::in_arena::realloc_in_arena;
use crate::in_mapping::realloc_in_mapping;
use crate::reallocated::Reallocated;
use address_space::{Kernel, Space};
use arena_core::Who;
use arena_holds::Places;
use chunk_tags::{Block, NoMemory, Size, Tunables, request_size};
use own_blocks::free::free;
use own_blocks::{Own, OwnCache, Reply, Why};

/// A block gets `nb` bytes where it is, or elsewhere.
fn realloc_block<P: Places, K: Kernel>(
    cache: &mut OwnCache,
    p: &mut P,
    who: &Who,
    block: Block,
    size: u64,
    nb: Size,
    space: &mut Space<K>,
    t: &Tunables,
) -> Result<Reallocated, Block>
    requires writer { P.ways.writes p.old who.now }
    requires bytes { size ≤ 2 ^ 63 }
    requires size { IsRequestSize nb }
    requires held { IsHeld block }
    requires tuned { IsTuned t.now }
    requires served { IsServed P.ways t.now (both_of (λ weigh. weigh block) (in_cache cache.old))
        (standing p.old space.old) }
    ensures resettles { IfOk result (λ done.
        Resettles (setting P.ways (means P.Hold.fast P.Hold.dials K.port) P.Dial.dials)
        t.now who.now
        (realloc_in t.now who.now.thread size nb block block.arena cache.old) nb block
        cache.old (standing p.old space.old) done cache.new (standing p.new space.new)) }
    ensures short { IfErr result (λ back.
        ResizesShort (setting P.ways (means P.Hold.fast P.Hold.dials K.port) P.Dial.dials) block
        nb cache.old (standing p.old space.old) back cache.new (standing p.new space.new)) }
    ensures left { OnErr result
        (IsLeft (setting P.ways (means P.Hold.fast P.Hold.dials K.port) P.Dial.dials) t.now who.now
        (realloc_in t.now who.now.thread size nb block block.arena cache.old)
        (standing p.old space.old) (standing p.new space.new)) }
    ensures kept { StaysOpen cache.old cache.new }
    ensures mapped { block.arena ≡ None → has_what_it_needs nb block ≡ true → is_ok result ≡ true }
{
    match block.arena {
        None => realloc_in_mapping(cache, p, who, block, size, nb, space, t),
        Some(a) => realloc_in_arena(cache, p, who, a, block, size, nb, space, t),
    }
}

/// realloc of a name's block to a size that is neither 0 nor too big.
#[tactic(auto, using(block_names::proofs::Tables::at_same, block_names::proofs::Tables::at_other, block_names::proofs::Tables::place_left, block_names::proofs::Tables::without_none))]
fn realloc_name<P: Places, K: Kernel>(
    own: &mut Own,
    p: &mut P,
    who: &Who,
    name: u32,
    size: u64,
    nb: Size,
    space: &mut Space<K>,
    t: &Tunables,
) -> Result<Reply, NoMemory>
    requires writer { P.ways.writes p.old who.now }
    requires bytes { size ≤ 2 ^ 63 }
    requires size { IsRequestSize nb }
    requires some { IsSome (block_at own.old.names name) }
    requires tuned { IsTuned t.now }
    requires served { IsServed P.ways t.now (in_own own.old) (standing p.old space.old) }
    ensures does { IfOk result (λ reply. (b : Piece) → block_at own.old.names name ≡ Some b →
        Does (setting P.ways (means P.Hold.fast P.Hold.dials K.port) P.Dial.dials) t.now who.now
        (then_call (realloc_in t.now who.now.thread size nb b b.arena own.old.cache)
        (λ r. Done (resettled name own.old r)))
        (standing p.old space.old) (reply, own.new) (standing p.new space.new)) }
    ensures fits { IfOk result (λ reply. IfAnswered reply (FitsName nb name own.new.names)) }
    ensures refused { IfOk result (λ reply. reply ≡ Null Refused
        → Rose (space_refusals K.port space.old) (space_refusals K.port space.new)) }
    ensures carries { Carries P.ways (is_ok result) (in_own own.old) (standing p.old space.old)
        (in_own own.new) (standing p.new space.new) }
    ensures others { (n : ℕ) → (n ≡ name → ⊥)
        → block_at own.new.names n ≡ block_at own.old.names n }
    ensures left { (b : Piece) → block_at own.old.names name ≡ Some b → OnErr result
        (IsLeft (setting P.ways (means P.Hold.fast P.Hold.dials K.port) P.Dial.dials) t.now who.now
        (then_call (realloc_in t.now who.now.thread size nb b b.arena own.old.cache)
        (λ r. Done (resettled name own.old r)))
        (standing p.old space.old) (standing p.new space.new)) }
    ensures kept { StaysOpen own.old.cache own.new.cache }
    ensures back { OnErr result (HoldsStill nb name own.old.names own.new.names) }
    ensures mapped { (b : Piece) → block_at own.old.names name ≡ Some b → b.arena ≡ None
        → has_what_it_needs nb b ≡ true → is_ok result ≡ true }
{
    let block = own.names.take(name).unwrap();
    match realloc_block(&mut own.cache, p, who, block, size, nb, space, t) {
        Ok(Reallocated { block, reply }) => {
            own.names.put(name, block);
            Ok(reply)
        }
        Err(block) => {
            own.names.put(name, block);
            Err(NoMemory)
        }
    }
}

/// realloc of a name's block (glibc's `__libc_realloc`); to 0 bytes it is freed. `NotYours` exactly where the name holds
/// nothing. After `NoMemory` the name holds the block that it had, or another that is large enough, or, at 0 bytes, nothing
/// where the arena has its block; it never comes where the size is too big, nor for a mapped block that is freed or has what it
/// needs.
pub fn realloc<P: Places, K: Kernel>(
    own: &mut Own,
    p: &mut P,
    who: &Who,
    name: u32,
    size: u64,
    space: &mut Space<K>,
    t: &Tunables,
) -> Result<Reply, NoMemory>
    requires writer { P.ways.writes p.old who.now }
    requires tuned { IsTuned t.now }
    requires served { IsServed P.ways t.now (in_own own.old) (standing p.old space.old) }
    ensures does { IfOk result (λ reply.
        Does (setting P.ways (means P.Hold.fast P.Hold.dials K.port) P.Dial.dials) t.now who.now
        (realloc_call t.now who.now.thread name size own.old)
        (standing p.old space.old) (reply, own.new) (standing p.new space.new)) }
    ensures none { block_at own.old.names name ≡ None → result ≡ Ok NotYours }
    ensures big { IsSome (block_at own.old.names name)
        → padded_request size ≡ None → result ≡ Ok (Null Big) }
    ensures fits { IfOk result
        (λ reply. IfAnswered reply (FitsName (chunk_size_of size) name own.new.names)) }
    ensures refused { IfOk result (λ reply. reply ≡ Null Refused
        → Rose (space_refusals K.port space.old) (space_refusals K.port space.new)) }
    ensures carries { Carries P.ways (is_ok result) (in_own own.old) (standing p.old space.old)
        (in_own own.new) (standing p.new space.new) }
    ensures others { (n : ℕ) → (n ≡ name → ⊥)
        → block_at own.new.names n ≡ block_at own.old.names n }
    ensures left { OnErr result
        (IsLeft (setting P.ways (means P.Hold.fast P.Hold.dials K.port) P.Dial.dials) t.now who.now
        (realloc_call t.now who.now.thread name size own.old)
        (standing p.old space.old) (standing p.new space.new)) }
    ensures kept { StaysOpen own.old.cache own.new.cache }
    ensures back { (size ≡ 0 → ⊥)
        → OnErr result (HoldsStill (chunk_size_of size) name own.old.names own.new.names) }
    ensures lost { size ≡ 0 → OnErr result
        (HoldsOrLoses (setting P.ways (means P.Hold.fast P.Hold.dials K.port) P.Dial.dials) t.now
        who.now name own.old.names own.new.names (standing p.new space.new)) }
    ensures cache { size ≡ 0 → is_open own.old.cache ≡ true
        → OnErr result (own.new.cache ≡ own.old.cache) }
    ensures unmapped { size ≡ 0 → (b : Piece) → block_at own.old.names name ≡ Some b
        → b.arena ≡ None → result ≡ Ok (Freed Unmapped) }
    ensures mapped { (b : Piece) → block_at own.old.names name ≡ Some b → b.arena ≡ None
        → has_what_it_needs (chunk_size_of size) b ≡ true → is_ok result ≡ true }
{
    let Some(_named) = own.names.get(name) else {
        return Ok(Reply::NotYours);
    };
    if size == 0 {
        return free(own, p, who, name, space, t);
    }
    match request_size(size) {
        None => Ok(Reply::Null(Why::Big)),
        Some(nb) => realloc_name(own, p, who, name, size, nb, space, t),
    }
}
