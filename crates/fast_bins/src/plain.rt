//! The fast bins for one order of calls.

ghost use Rattle.std.specs.Prelude.{◌≡◌, [], length, map, replicate, IfOk, OnOk, OnErr};
ghost use Rattle.fast_bins.specs.FastPorts.{fast_bin_count};
ghost use Rattle.fast_bins.specs.PlainBins.{empty_bin, empty_state, state_of, listed, plain_fast, ten_bins, Roomier, HaveRoom};

use crate::port::{FAST_BINS, FastPort};
use crate::stack::BinStack;
use chunk_tags::{Addr, NoMemory};
use std::alloc::Global;
use std::marker::Model;

/// Ten fast bins for one order of calls, of which each keeps its chunks itself. They are made where room is made first.
#[derive(Drop)]
pub struct PlainFast {
    flag: bool,
    /// Whether each bin is known to have room for one more chunk.
    is_roomy: bool,
    bins: Vec<BinStack>,
    alloc: Global,
}

impl Model for PlainFast {
    ghost use Rattle.fast_bins.specs.PlainBins.{PlainBins, ten_bins, AreTen};

    ghost Value = { PlainBins };

    ghost view = { λ p. record { flag = p.flag; bins = ten_bins p.bins.items } };

    ghost invariant = { λ p. AreTen p.is_roomy (ten_bins p.bins.items) };
}

/// Ten empty bins.
fn empty_bins(alloc: Global) -> Result<Vec<BinStack>, NoMemory>
    ensures { IfOk result (λ v. map (λ b. b.bin) v.items ≡ replicate fast_bin_count empty_bin) }
{
    let mut bins = Vec::with_capacity(alloc, usize::from(FAST_BINS))?;
    for _ in 0..FAST_BINS {
        bins.push(BinStack::new(alloc))?;
    }
    Ok(bins)
}

/// Makes room for one more chunk in each bin.
fn reserve_each(bins: &mut [BinStack]) -> Result<(), NoMemory>
    ensures roomier { Roomier bins.old bins.new }
    ensures room { OnOk result (HaveRoom (length bins.new) bins.new) }
    ensures full { OnErr result (HaveRoom (length bins.old) bins.old → ⊥) }
    ensures still { OnErr result (HaveRoom (length bins.old) bins.new → ⊥) }
{
    for b in bins.iter_mut() {
        b.make_room()?;
    }
    Ok(())
}

/// Makes ten bins where there are none.
fn make_bins(bins: &mut Vec<BinStack>, alloc: Global) -> Result<(), NoMemory>
    requires { length (ten_bins bins.old.items) ≡ fast_bin_count }
    ensures roomier { Roomier (ten_bins bins.old.items) (ten_bins bins.new.items) }
    ensures ten { OnOk result (length bins.new.items ≡ fast_bin_count) }
    ensures none { OnErr result (bins.old.items ≡ []) }
    ensures still { OnErr result (bins.new.items ≡ []) }
{
    if !bins.is_empty() {
        return Ok(());
    }
    *bins = empty_bins(alloc)?;
    Ok(())
}

/// Makes room for one more chunk in each bin, and the bins where there are none.
fn make_room_in(bins: &mut Vec<BinStack>, alloc: Global) -> Result<(), NoMemory>
    requires { length (ten_bins bins.old.items) ≡ fast_bin_count }
    ensures roomier { Roomier (ten_bins bins.old.items) (ten_bins bins.new.items) }
    ensures room { OnOk result (HaveRoom fast_bin_count (ten_bins bins.new.items)) }
    ensures full { OnErr result (HaveRoom fast_bin_count (ten_bins bins.old.items) → ⊥) }
    ensures still { OnErr result (HaveRoom fast_bin_count (ten_bins bins.new.items) → ⊥) }
{
    make_bins(bins, alloc)?;
    reserve_each(bins)
}

/// The addresses in each bin, front first.
fn lists_of(alloc: Global, bins: &[BinStack]) -> Result<Vec<Vec<Addr>>, NoMemory>
    ensures { IfOk result (λ v. map (λ l. l.items) v.items ≡ map listed (map (λ b. b.bin) bins.now)) }
{
    let mut lists = Vec::with_capacity(alloc, bins.len())?;
    for b in bins {
        lists.push(b.addresses(alloc)?)?;
    }
    Ok(lists)
}

impl PlainFast {
    /// Ten empty bins and an unset flag. No memory is asked for.
    pub fn new(alloc: Global) -> PlainFast
        ensures { state_of result ≡ empty_state }
    {
        PlainFast {
            flag: false,
            is_roomy: false,
            bins: Vec::new(alloc),
            alloc,
        }
    }

    /// The addresses in each bin, front first.
    pub fn lists(&self, alloc: Global) -> Result<Vec<Vec<Addr>>, NoMemory>
        ensures lists { IfOk result (λ v.
            map (λ l. l.items) v.items ≡ map listed (state_of self.now).bins) }
        ensures ten { IfOk result (λ v. length v.items ≡ fast_bin_count) }
    {
        if self.bins.is_empty() {
            return lists_of(alloc, &empty_bins(alloc)?);
        }
        lists_of(alloc, &self.bins)
    }

    /// A law; the call does nothing. There are ten bins.
    pub fn laws(&self)
        ensures { length self.now.bins ≡ fast_bin_count }
    {
        let _ = &self.bins;
    }
}

impl FastPort for PlainFast {
    ghost fast = { plain_fast };

    fn make_room(&mut self) -> Result<(), NoMemory> {
        if self.is_roomy {
            return Ok(());
        }
        make_room_in(&mut self.bins, self.alloc)?;
        self.is_roomy = true;
        Ok(())
    }

    fn flag(&mut self) -> bool {
        self.flag
    }

    fn clear_flag(&mut self) {
        self.flag = false;
    }

    fn push(&mut self, bin: u8, at: Addr) {
        let stack = &mut self.bins[usize::from(bin)];
        stack.push(at);
        self.is_roomy &= stack.has_room();
        self.flag = true;
    }

    fn pop(&mut self, bin: u8) -> Option<Addr> {
        let Some(stack) = self.bins.get_mut(usize::from(bin)) else {
            return None;
        };
        stack.pop()
    }

    fn take_all(&mut self, bin: u8) {
        let Some(stack) = self.bins.get_mut(usize::from(bin)) else {
            return;
        };
        stack.gather();
    }

    fn pop_own(&mut self, bin: u8) -> Option<Addr> {
        let Some(stack) = self.bins.get_mut(usize::from(bin)) else {
            return None;
        };
        stack.pop_own()
    }
}
