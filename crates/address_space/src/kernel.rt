//! A port that stands for a kernel.

ghost use Rattle.std.specs.Prelude.{◌≡◌, ℕ, Bool, true};
ghost use Rattle.address_space.specs.declared.asks.Ask.{Ask};
ghost use Rattle.address_space.specs.declared.asks.Back.{Back};
ghost use Rattle.address_space.specs.declared.asks.Answer.{Answer};
ghost use Rattle.address_space.specs.declared.asks.Answer.TheVariants.{Granted};
ghost use Rattle.address_space.specs.Ports.{Port, Asks, GivesBack};

use crate::asks::{Answer, Ask, Back};

/// A kernel that a thread asks for address space. Its count of refusals never falls, and rises where it
/// refuses. It may also tell its answers beforehand.
pub trait Kernel: Send + Drop {
    ghost port: { Port Self };

    /// Puts an ask.
    fn ask(&mut self, ask: Ask) -> Answer
        ensures { Asks port self.old ask result self.new };

    /// Gives address space back.
    fn back(&mut self, back: Back)
        ensures { GivesBack port self.old back self.new };
}

/// A port that grants every ask.
#[derive(Clone, Copy, Debug, PartialEq, Eq)]
pub struct Always;

impl Kernel for Always {
    ghost port = { record {
      refusals = λ _. 0;
      tells = λ _. true;
      answer = λ _ _. Granted;
      asked = λ k _. k;
      given = λ k _. k;
    } };

    fn ask(&mut self, _ask: Ask) -> Answer {
        Answer::Granted
    }

    fn back(&mut self, _back: Back) {}
}
