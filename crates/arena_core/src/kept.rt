//! What entries and answers are kept as.

ghost use Rattle.std.specs.Prelude.{◌≡◌, ◌<◌, ◌≤◌, ◌+◌, ◌++◌, [], ◌∷◌, map, length, vec_len, vec_capacity};
ghost use Rattle.arena_core.specs.Kept.{told_of, asks_of, asks_in};

use crate::journal::{Act, Ended, Who};
use address_space::{Answer, Ask};
use arena_rules::Said;
use chunk_tags::Addr;

/// An entry without its answers, and how many it has (this project's own).
#[derive(Clone, Copy, Debug, PartialEq, Eq)]
pub struct Row {
    pub who: Who,
    pub act: Act,
    pub ended: Ended,
    pub answers: usize,
}

const _: () = prove!(size_of::<Row>() == 88);

/// An answer as it is kept (this project's own): an ask is wider than the others, so asks stand in a list of their own, in order.
#[derive(Clone, Copy, Debug, PartialEq, Eq)]
pub enum Told {
    Flag(bool),
    NonePopped,
    Popped(Addr),
    NoOwn,
    Own(Addr),
    Room(bool),
    /// The next one of the asks.
    Asked,
    Dial(u64),
}

const _: () = prove!(size_of::<Told>() == 16);

/// What an answer is kept as.
fn told_of(said: &Said) -> Told
    ensures { result ≡ told_of said.now }
{
    match *said {
        Said::Flag(up) => Told::Flag(up),
        Said::Popped(None) => Told::NonePopped,
        Said::Popped(Some(at)) => Told::Popped(at),
        Said::Own(None) => Told::NoOwn,
        Said::Own(Some(at)) => Told::Own(at),
        Said::Room(is_there) => Told::Room(is_there),
        Said::Asked(_ask, _answer) => Told::Asked,
        Said::Dial(number) => Told::Dial(number),
    }
}

/// Puts an item behind the others, where room was made for it. No memory is asked for.
pub fn put<T>(items: &mut Vec<T>, item: T)
    requires { vec_len items.old < vec_capacity items.old }
    ensures items { items.new.items ≡ items.old.items ++ item ∷ [] }
    ensures capacity { vec_capacity items.old ≤ vec_capacity items.new }
{
    items.push(item).unwrap();
}

/// Keeps an answer behind the others, where room was made for it, and for an ask. No memory is asked for.
fn keep(told: &mut Vec<Told>, asks: &mut Vec<(Ask, Answer)>, said: &Said)
    requires told { vec_len told.old < vec_capacity told.old }
    requires asks { vec_len asks.old < vec_capacity asks.old }
    ensures told { told.new.items ≡ told.old.items ++ told_of said.now ∷ [] }
    ensures asks { asks.new.items ≡ asks.old.items ++ asks_of said.now }
    ensures told_room { vec_capacity told.old ≤ vec_capacity told.new }
    ensures asks_room { vec_capacity asks.old ≤ vec_capacity asks.new }
{
    put(told, told_of(said));
    if let Said::Asked(ask, answer) = *said {
        put(asks, (ask, answer));
    }
}

/// Keeps answers behind the others, where room was made for as many, and for as many asks. No memory is asked for.
pub fn keep_all(told: &mut Vec<Told>, asks: &mut Vec<(Ask, Answer)>, said: &[Said])
    requires told { vec_len told.old + length said.now ≤ vec_capacity told.old }
    requires asks { vec_len asks.old + length said.now ≤ vec_capacity asks.old }
    ensures told { told.new.items ≡ told.old.items ++ map told_of said.now }
    ensures asks { asks.new.items ≡ asks.old.items ++ asks_in said.now }
{
    for answer in said {
        keep(told, asks, answer);
    }
}
