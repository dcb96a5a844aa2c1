//! free.

ghost use Rattle.std.specs.Prelude.{◌≡◌, ℕ, ◌<◌, true, nat_le, Some, None, Ok, IsSome, IfSome, IfOk, OnOk, OnErr, is_ok, IsTrue};
ghost use Rattle.chunk_tags.specs.Tunables.{IsTuned};
ghost use Rattle.consolidate_trim.specs.Outside.{means};
ghost use Rattle.block_names.specs.Blocks.{IsHeld};
ghost use Rattle.block_names.specs.Names.{block_at, with_some, without_block, has_place};
ghost use Rattle.own_blocks.specs.Frees.{free_call, free_to, IsFreed, HoldsOrLoses};
ghost use Rattle.own_blocks.specs.declared.cached.CachedFree.TheVariants.{Done};
ghost use Rattle.thread_cache.specs.Caches.{takes, is_open, structure_of};
ghost use Rattle.chunk_tags.specs.declared.block.Block.{Block as Piece};
ghost use Rattle.own_blocks.specs.declared.reply.Reply.TheVariants.{Freed, NotYours};
ghost use Rattle.own_blocks.specs.declared.reply.To.TheVariants.{Cached, Unmapped};
ghost use Rattle.arena_holds.specs.Going.{Does};
ghost use Rattle.arena_holds.specs.RunningShort.{RunsShort};
ghost use Rattle.own_blocks.specs.LeftCalls.{IsLeft};
ghost use Rattle.arena_holds.specs.Places.{setting, IsServed, Carries, standing};
ghost use Rattle.own_blocks.specs.Own.{in_own, cached_end};
ghost use Rattle.own_blocks.specs.Structure.{StaysOpen};

use crate::opening::open_cache;
use crate::own::Own;
use crate::releasing::release;
use crate::reply::{Reply, To};
use address_space::{Kernel, Space};
use arena_core::Who;
use arena_holds::{Places, free_mapped};
use block_names::Names;
use chunk_tags::{Block, NoMemory, Tunables};

/// Gives a block that came back its name, where there is one.
fn put_back(names: &mut Names, name: u32, back: Option<Block>)
    requires room { IsTrue (has_place names.old name) }
    requires empty { block_at names.old name ≡ None }
    requires held { IfSome back IsHeld }
    ensures { names.new ≡ with_some name back names.old }
{
    if let Some(block) = back {
        names.put(name, block);
    }
}

/// Releases a name's block, which is of an arena. Where memory is short the name holds it again, or the arena has it.
#[tactic(auto, using(block_names::proofs::Tables::without_none))]
fn free_chunk<P: Places, K: Kernel>(
    own: &mut Own,
    p: &mut P,
    who: &Who,
    name: u32,
    a: u8,
    space: &mut Space<K>,
    t: &Tunables,
) -> Result<Reply, NoMemory>
    requires writer { P.ways.writes p.old who.now }
    requires at { IfSome (block_at own.old.names name) (λ b. b.arena ≡ Some a) }
    requires some { IsSome (block_at own.old.names name) }
    requires tuned { IsTuned t.now }
    requires served { IsServed P.ways t.now (in_own own.old) (standing p.old space.old) }
    ensures does { IfOk result (λ reply. (b : Piece) → block_at own.old.names name ≡ Some b →
        Does (setting P.ways (means P.Hold.fast P.Hold.dials K.port) P.Dial.dials) t.now who.now
        (free_to t.now a name b own.old)
        (standing p.old space.old) (reply, own.new) (standing p.new space.new)) }
    ensures carries { Carries P.ways (is_ok result) (in_own own.old) (standing p.old space.old)
        (in_own own.new) (standing p.new space.new) }
    ensures names { OnErr result
        (HoldsOrLoses (setting P.ways (means P.Hold.fast P.Hold.dials K.port) P.Dial.dials) t.now
        who.now name own.old.names own.new.names (standing p.new space.new)) }
    ensures left { (b : Piece) → block_at own.old.names name ≡ Some b → OnErr result
        (RunsShort (setting P.ways (means P.Hold.fast P.Hold.dials K.port) P.Dial.dials) t.now
        who.now (free_to t.now a name b own.old)
        (standing p.old space.old) (standing p.new space.new)) }
    ensures structure { structure_of own.new.cache ≡ structure_of own.old.cache }
    ensures unchanged { OnErr result (own.new.cache ≡ own.old.cache) }
    ensures taken { OnOk result (own.new.names ≡ without_block name own.old.names) }
    ensures freed { IfOk result IsFreed }
    ensures cached { (b : Piece) → block_at own.old.names name ≡ Some b
        → takes own.old.cache b ≡ true → result ≡ Ok (Freed Cached) }
    ensures fast { (b : Piece) → block_at own.old.names name ≡ Some b
        → nat_le b.size t.now.max_fast ≡ true → P.ways.room p.old a → is_ok result ≡ true }
{
    let block = own.names.take(name).unwrap();
    match release(&mut own.cache, p, who, a, block, space, t) {
        Ok(to) => Ok(Reply::Freed(to)),
        Err(short) => {
            put_back(&mut own.names, name, short.back);
            Err(NoMemory)
        }
    }
}

/// free of a name's block (glibc's `__libc_free`). `NotYours` exactly where the name holds nothing. After `NoMemory` the name
/// holds its block, or nothing where its arena has that; it never comes for a mapped block, one that the cache takes, or a name
/// that holds nothing.
pub fn free<P: Places, K: Kernel>(
    own: &mut Own,
    p: &mut P,
    who: &Who,
    name: u32,
    space: &mut Space<K>,
    t: &Tunables,
) -> Result<Reply, NoMemory>
    requires writer { P.ways.writes p.old who.now }
    requires tuned { IsTuned t.now }
    requires served { IsServed P.ways t.now (in_own own.old) (standing p.old space.old) }
    ensures does { IfOk result (λ reply.
        Does (setting P.ways (means P.Hold.fast P.Hold.dials K.port) P.Dial.dials) t.now who.now
        (free_call t.now who.now.thread name own.old)
        (standing p.old space.old) (reply, own.new) (standing p.new space.new)) }
    ensures none { block_at own.old.names name ≡ None → result ≡ Ok NotYours }
    ensures mapped { (b : Piece) → block_at own.old.names name ≡ Some b → b.arena ≡ None
        → result ≡ Ok (Freed Unmapped) }
    ensures carries { Carries P.ways (is_ok result) (in_own own.old) (standing p.old space.old)
        (in_own own.new) (standing p.new space.new) }
    ensures names { OnErr result
        (HoldsOrLoses (setting P.ways (means P.Hold.fast P.Hold.dials K.port) P.Dial.dials) t.now
        who.now name own.old.names own.new.names (standing p.new space.new)) }
    ensures left { OnErr result
        (IsLeft (setting P.ways (means P.Hold.fast P.Hold.dials K.port) P.Dial.dials) t.now who.now
        (free_call t.now who.now.thread name own.old)
        (standing p.old space.old) (standing p.new space.new)) }
    ensures kept { StaysOpen own.old.cache own.new.cache }
    ensures cache { is_open own.old.cache ≡ true → OnErr result (own.new.cache ≡ own.old.cache) }
    ensures taken { OnOk result (own.new.names ≡ without_block name own.old.names) }
    ensures freed { IfOk result IsFreed }
    ensures cached { cached_end own.old (block_at own.old.names name) ≡ Done
        → result ≡ Ok (Freed Cached) }
    ensures fast { (b : Piece) → (a : ℕ) → block_at own.old.names name ≡ Some b → b.arena ≡ Some a
        → is_open own.old.cache ≡ true → nat_le b.size t.now.max_fast ≡ true
        → P.ways.room p.old a → is_ok result ≡ true }
{
    let Some(named) = own.names.get(name) else {
        return Ok(Reply::NotYours);
    };
    match named.arena {
        None => {
            let block = own.names.take(name).unwrap();
            free_mapped(p, block, space, t);
            Ok(Reply::Freed(To::Unmapped))
        }
        Some(a) => {
            open_cache(&mut own.cache, p, who, space, t)?;
            free_chunk(own, p, who, name, a, space, t)
        }
    }
}
