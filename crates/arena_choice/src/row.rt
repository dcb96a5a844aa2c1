//! A list of arenas' numbers whose room is reserved when it is made.

ghost use Rattle.std.specs.Prelude.{◌≡◌, ◌<◌, ◌≤◌, ◌+◌, ◌++◌, [], ◌∷◌, drop, length, IfOk, slice_get, true};
ghost use Rattle.arena_choice.specs.Numbers.{has, without, with_second, list_with, behind_or, lowest_unused};

use std::alloc::{AllocError, Global};
use std::marker::Model;

/// Numbers in a list, with room that was reserved for them (this project's own).
#[derive(Debug, Drop)]
pub struct Row {
    numbers: Vec<u8>,
}

impl Model for Row {
    ghost use Rattle.std.specs.Prelude.{vec_capacity};
    ghost use Rattle.arena_choice.specs.Rows.{Rowed};

    ghost Value = { Rowed };

    ghost view = { λ r. record { room = vec_capacity r.numbers; numbers = r.numbers.items } };
}

impl Row {
    /// An empty list with room for so many numbers.
    pub fn with_room(alloc: Global, room: u8) -> Result<Row, AllocError>
        ensures empty { IfOk result (λ r. r.numbers ≡ []) }
        ensures room { IfOk result (λ r. r.room ≡ room) }
    {
        Ok(Row {
            numbers: Vec::with_capacity(alloc, usize::from(room))?,
        })
    }

    /// The numbers, from the first on.
    pub fn as_slice(&self) -> &[u8]
        ensures { result.now ≡ self.now.numbers }
    {
        self.numbers.as_slice()
    }

    /// How many there are.
    pub fn len(&self) -> usize
        ensures { result ≡ length self.now.numbers }
    {
        self.numbers.len()
    }

    /// Whether a number is there.
    pub fn has(&self, a: u8) -> bool
        ensures { result ≡ has a self.now.numbers }
    {
        self.numbers.contains(&a)
    }

    /// Puts a number in front. There is room, so no memory is asked for.
    pub fn push_front(&mut self, a: u8)
        requires { length self.old.numbers < self.old.room }
        ensures pushed { self.new.numbers ≡ a ∷ self.old.numbers }
        ensures room { self.old.room ≤ self.new.room }
    {
        self.numbers.insert(0, a).unwrap();
    }

    /// Puts a number behind the first one. There is room, so no memory is asked for.
    pub fn push_second(&mut self, a: u8)
        requires { length self.old.numbers < self.old.room }
        ensures pushed { self.new.numbers ≡ with_second a self.old.numbers }
        ensures room { self.old.room ≤ self.new.room }
    {
        let at = self.numbers.len().min(1);
        self.numbers.insert(at, a).unwrap();
    }

    /// The first number, which leaves the list.
    pub fn pop_front(&mut self) -> Option<u8>
        ensures first { result ≡ slice_get self.old.numbers 0 }
        ensures rest { self.new.numbers ≡ drop 1 self.old.numbers }
        ensures room { self.new.room ≡ self.old.room }
    {
        if self.numbers.is_empty() {
            None
        } else {
            Some(self.numbers.remove(0))
        }
    }

    /// Takes a number out.
    pub fn take_out(&mut self, a: u8)
        ensures rest { self.new.numbers ≡ without a self.old.numbers }
        ensures room { self.new.room ≡ self.old.room }
    {
        self.numbers.retain(|x| *x != a);
    }

    /// What stands behind a number, or `other` where nothing does.
    pub fn behind_or(&self, other: u8, a: u8) -> u8
        ensures { result ≡ behind_or other a self.now.numbers }
    {
        let numbers = self.numbers.as_slice();
        for i in 0..numbers.len() {
            if numbers[i] == a {
                return if i + 1 < numbers.len() {
                    numbers[i + 1]
                } else {
                    other
                };
            }
        }
        other
    }
}

/// Whether a number is in one of two lists.
fn has_either(list: &Row, kept: &Row, a: u8) -> bool
    ensures { result ≡ has a (list.now.numbers ++ kept.now.numbers) }
{
    list.has(a) || kept.has(a)
}

/// The lowest number that is in neither of two lists, of which there are few.
pub fn lowest_unused(list: &Row, kept: &Row) -> u8
    requires { length list.now.numbers + length kept.now.numbers ≤ 64 }
    ensures { result ≡ lowest_unused (list.now.numbers ++ kept.now.numbers) }
{
    let count = (list.len() + kept.len()) as u8;
    for a in 0..count {
        if !has_either(list, kept, a) {
            return a;
        }
    }
    count
}

/// Takes a number out of the second list, where it is there, and puts it behind the first of the first list. There is
/// room, so no memory is asked for.
pub fn move_over(list: &mut Row, kept: &mut Row, a: u8)
    requires { has a kept.old.numbers ≡ true → length list.old.numbers < list.old.room }
    ensures list { list.new.numbers ≡ list_with a kept.old.numbers list.old.numbers }
    ensures kept { kept.new.numbers ≡ without a kept.old.numbers }
    ensures list_room { list.old.room ≤ list.new.room }
    ensures kept_room { kept.new.room ≡ kept.old.room }
{
    if kept.has(a) {
        list.push_second(a);
    }
    kept.take_out(a);
}
