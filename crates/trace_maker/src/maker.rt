//! The calls of a trace that is made, and what they are made from.

ghost use Rattle.std.specs.Prelude.{◌≡◌, ◌<◌, ◌-◌, ◌%◌, ◌^◌, IfOk};
ghost use Rattle.trace_maker.specs.Generator.{next_seed, draw, behind_draw, sizes_of, receiver_of, first_state, malloc_made, unheld_made, queue_of, post_made, realloc_made, held_made, call_made};

use crate::queue::{Queue, put_tray, queues, take_tray};
use chunk_tags::NoMemory;
use std::alloc::Global;
use std::marker::Model;
use trace_text::Call;

/// What the next line is made from.
#[derive(Drop)]
pub(crate) struct Maker {
    seed: u64,
    queues: Vec<Queue>,
    next_tray: u32,
}

impl Model for Maker {
    ghost use Rattle.std.specs.Prelude.{◌≡◌, vec_len};
    ghost use Rattle.trace_maker.specs.Generator.{State};

    ghost Value = { State };

    ghost view = { λ m. record {
      seed = m.seed;
      queues = m.queues.items;
      next_tray = m.next_tray;
    } };

    ghost invariant = { λ m. vec_len m.queues ≡ 4 };
}

/// The seed of the next draw: one step of a linear congruence.
#[tactic(auto, using(crate::proofs::Draws::draw_steps), unfolding(crate::specs::Generator::next_seed))]
fn step(seed: u64) -> u64
    ensures { result ≡ next_seed seed }
{
    seed.wrapping_mul(6_364_136_223_846_793_005)
        .wrapping_add(1_442_695_040_888_963_407)
}

/// How many sizes a block's size is drawn from.
fn size_count(kind: u64) -> u64
    ensures { result ≡ sizes_of kind }
{
    if kind < 12 {
        1025
    } else if kind < 15 {
        20_001
    } else {
        300_001
    }
}

impl Maker {
    /// Before the first line.
    pub(crate) fn new(alloc: Global, seed: u64) -> Result<Maker, NoMemory>
        ensures { IfOk result (λ maker. maker ≡ first_state seed) }
    {
        Ok(Maker {
            seed,
            queues: queues(alloc)?,
            next_tray: 0,
        })
    }

    /// Draws a number below a limit.
    #[tactic(auto, unfolding(crate::specs::Generator::draw))]
    pub(crate) fn draw(&mut self, limit: u64) -> u64
        requires { 0 < limit }
        ensures value { result ≡ draw self.old.seed % limit }
        ensures below { result < limit }
        ensures state { self.new ≡ behind_draw self.old }
    {
        self.seed = step(self.seed);
        (self.seed >> 33) % limit
    }

    /// A new block.
    #[tactic(auto, unfolding(crate::specs::Generator::malloc_made))]
    fn malloc_call(&mut self, name: u32) -> Call
        ensures { (result, self.new) ≡ malloc_made name self.old }
    {
        let kind = self.draw(16);
        let size = self.draw(size_count(kind));
        Call::Malloc { name, size }
    }

    /// The call under a name that isn't held.
    #[tactic(auto, unfolding(crate::specs::Generator::unheld_made))]
    fn unheld_call(&mut self, thread: u8, name: u32) -> Call
        requires { thread < 4 }
        ensures { (result, self.new) ≡
            unheld_made (queue_of self.old.queues thread) thread name self.old }
    {
        match take_tray(&mut self.queues, thread) {
            Some(tray) => Call::Take { name, tray },
            None => self.malloc_call(name),
        }
    }

    /// The block is posted to the next tray.
    #[tactic(auto, unfolding(crate::specs::Generator::post_made))]
    fn post_call(&mut self, thread: u8, name: u32) -> Result<Call, NoMemory>
        requires thread { thread < 4 }
        requires tray { self.old.next_tray < 2 ^ 32 - 1 }
        ensures { IfOk result (λ call. (call, self.new) ≡ post_made thread name self.old) }
    {
        let tray = self.next_tray;
        put_tray(&mut self.queues, (thread + 1) % 4, tray)?;
        self.next_tray = tray + 1;
        Ok(Call::Post { name, tray })
    }

    /// The call under a name that is held.
    #[tactic(auto, unfolding(crate::specs::Generator::held_made, crate::specs::Generator::realloc_made))]
    fn held_call(&mut self, kind: u64, thread: u8, name: u32) -> Result<Call, NoMemory>
        requires { thread < 4 }
        ensures { IfOk result (λ call. (call, self.new) ≡ held_made kind thread name self.old) }
    {
        if kind == 0 {
            let size = self.draw(4096) + 1;
            return Ok(Call::Realloc { name, size });
        }
        if kind == 1 && self.next_tray <= 65_535 {
            return self.post_call(thread, name);
        }
        Ok(Call::Free { name })
    }

    /// The call of a thread under a name.
    #[tactic(auto, unfolding(crate::specs::Generator::call_made))]
    pub(crate) fn call(&mut self, held: bool, thread: u8, name: u32) -> Result<Call, NoMemory>
        requires { thread < 4 }
        ensures { IfOk result (λ call. (call, self.new) ≡ call_made held thread name self.old) }
    {
        if held {
            let kind = self.draw(8);
            return self.held_call(kind, thread, name);
        }
        Ok(self.unheld_call(thread, name))
    }
}
