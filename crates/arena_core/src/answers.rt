//! The answers of a journal, one by one.

ghost use Rattle.std.specs.Prelude.{◌≡◌, ◌++◌, take, drop, length, OnOk};
ghost use Rattle.arena_core.specs.Kept.{asks_told, answers_of};

use crate::kept::Told;
use address_space::{Answer, Ask};
use arena_rules::Said;
use chunk_tags::NoMemory;
use consolidate_trim::{make_room, tell};
use std::marker::Model;

/// The answers that are still to come (this project's own): those that are kept, then those of the last hold.
#[derive(Drop)]
pub struct Answers<'a> {
    told: &'a [Told],
    asks: &'a [(Ask, Answer)],
    last: &'a [Said],
}

impl<'a> Model for Answers<'a> {
    ghost use Rattle.std.specs.Prelude.{List, ◌≡◌, ◌++◌, length};
    ghost use Rattle.arena_rules.specs.declared.said.Said.{Said};
    ghost use Rattle.arena_core.specs.Kept.{asks_told, answers_of};

    ghost Value = { List Said };

    ghost view = { λ a. answers_of a.told.now a.asks.now ++ a.last.now };

    ghost invariant = { λ a. asks_told a.told.now ≡ length a.asks.now };
}

impl<'a> Answers<'a> {
    /// These answers, with their asks, and those of the last hold.
    pub fn of(told: &'a [Told], asks: &'a [(Ask, Answer)], last: &'a [Said]) -> Answers<'a>
        requires { asks_told told.now ≡ length asks.now }
        ensures { result ≡ answers_of told.now asks.now ++ last.now }
    {
        Answers { told, asks, last }
    }

    /// The same answers again.
    pub fn again(&self) -> Answers<'a>
        ensures { result ≡ self.now }
    {
        Answers {
            told: self.told,
            asks: self.asks,
            last: self.last,
        }
    }

    /// Appends the next answer, where there is one.
    pub fn tell_next(&mut self, said: &mut Vec<Said>) -> Result<(), NoMemory>
        ensures next { OnOk result (said.new.items ≡ said.old.items ++ take 1 self.old) }
        ensures behind { OnOk result (self.new ≡ drop 1 self.old) }
    {
        make_room(said)?;
        let Some((first, told)) = self.told.split_first() else {
            if let Some((first, last)) = self.last.split_first() {
                tell(said, first);
                self.last = last;
            }
            return Ok(());
        };
        let answer = match *first {
            Told::Flag(up) => Said::Flag(up),
            Told::NonePopped => Said::Popped(None),
            Told::Popped(at) => Said::Popped(Some(at)),
            Told::NoOwn => Said::Own(None),
            Told::Own(at) => Said::Own(Some(at)),
            Told::Room(is_there) => Said::Room(is_there),
            Told::Asked => {
                let (ask, answer) = self.asks[0];
                self.asks = &self.asks[1..];
                Said::Asked(ask, answer)
            }
            Told::Dial(number) => Said::Dial(number),
        };
        self.told = told;
        tell(said, &answer);
        Ok(())
    }
}
