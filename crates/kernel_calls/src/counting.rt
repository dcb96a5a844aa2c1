//! The port that counts.

ghost use Rattle.std.specs.Prelude.{◌≡◌, false, vec_len, length, IfOk};
ghost use Rattle.address_space.specs.declared.asks.Answer.TheVariants.{Granted};
ghost use Rattle.address_space.specs.Ports.{Asks, GivesBack};
ghost use Rattle.kernel_calls.specs.Counting.{with_ask, with_back};

use crate::counts::Counts;
use address_space::{Answer, Ask, Back, Kernel};
use chunk_tags::NoMemory;
use std::alloc::Global;

/// Grants each ask, and counts asks and what is given back in counts that stand outside, since a run lets go its ports.
#[derive(Drop)]
pub struct Counting<'a> {
    counts: &'a mut Counts,
}

impl<'a> Counting<'a> {
    /// A port that counts there.
    fn new(counts: &'a mut Counts) -> Counting<'a>
        ensures there { result.counts.ghost_name ≡ counts.entry.ghost_name }
        ensures value { result.counts.now ≡ counts.old }
    {
        Counting { counts }
    }
}

impl<'a> Kernel for Counting<'a> {
    ghost port = { record {
      refusals = λ _. 0;
      tells = λ _. false;
      answer = λ _ _. Granted;
      asked = λ k _. k;
      given = λ k _. k;
    } };

    fn ask(&mut self, ask: Ask) -> Answer
        ensures asks { Asks ⟦<Counting<'a> as Kernel>⟧.port self.old ask result self.new }
        ensures grants { result ≡ Answer.Granted }
        ensures there { self.new.counts.ghost_name ≡ self.old.counts.ghost_name }
        ensures counts { self.new.counts.now ≡ with_ask self.old.counts.now ask }
    {
        self.counts.count_ask(ask);
        Answer::Granted
    }

    fn back(&mut self, back: Back)
        ensures gives { GivesBack ⟦<Counting<'a> as Kernel>⟧.port self.old back self.new }
        ensures there { self.new.counts.ghost_name ≡ self.old.counts.ghost_name }
        ensures counts { self.new.counts.now ≡ with_back self.old.counts.now back }
    {
        self.counts.count_back(back);
    }
}

/// A port for each of these counts.
pub fn ports<'a>(alloc: Global, all: &'a mut [Counts]) -> Result<Vec<Counting<'a>>, NoMemory>
    ensures { IfOk result (λ ports. vec_len ports ≡ length all.old) }
{
    let mut ports = Vec::new(alloc);
    for counts in all.iter_mut() {
        ports.push(Counting::new(counts))?;
    }
    Ok(ports)
}
