//! The journal of an arena's holds.

ghost use Rattle.std.specs.Prelude.{◌≡◌, ◌<◌, ◌≤◌, [], ◌∷◌, ◌++◌, length, OnOk, OnErr, IfOk};
ghost use Rattle.arena_core.specs.Arenas.{recorded};

use crate::journal::{Act, Ended, Who};
use crate::lists::JournalLists;
use crate::reading::Entries;
use arena_rules::Said;
use chunk_tags::NoMemory;
use std::alloc::Global;
use std::marker::Model;

/// The journal of an arena: an entry for each of its holds, in order (this project's own). It stands behind a pointer, so that
/// an arena which is lent moves in two pointers.
#[derive(Drop)]
pub struct Journal {
    lists: Box<JournalLists>,
}

impl Model for Journal {
    ghost use Rattle.arena_core.specs.Kept.{JournalValue};

    ghost Value = { JournalValue };

    ghost view = { λ j. j.lists.value };
}

impl Journal {
    /// No entries.
    pub fn new(alloc: Global) -> Result<Journal, NoMemory>
        ensures { IfOk result (λ j. j.items ≡ []) }
    {
        let lists = Box::new(alloc, JournalLists::new(alloc))?;
        Ok(Journal { lists })
    }

    /// How many entries there are.
    pub fn len(&self) -> usize
        ensures { result ≡ length self.now.items }
    {
        self.lists.as_ref().len()
    }

    /// The entries, from the first on.
    pub fn entries(&self) -> Entries<'_>
        ensures { result ≡ self.now.items }
    {
        self.lists.as_ref().entries()
    }

    /// Makes room for the entry of a hold that begins, and gives the list for its answers.
    pub fn begin(&mut self) -> Result<Vec<Said>, NoMemory>
        ensures items { self.new.items ≡ self.old.items }
        ensures room { OnOk result (length self.new.items < self.new.capacity) }
        ensures full { OnErr result (self.old.capacity ≤ length self.old.items) }
        ensures empty { IfOk result (λ said. said.items ≡ []) }
    {
        self.lists.as_mut().begin()
    }

    /// Appends the entry of a hold, for which room was made. No memory is asked for.
    pub fn append(&mut self, who: Who, act: Act, said: Vec<Said>, ended: Ended)
        requires { length self.old.items < self.old.capacity }
        ensures { self.new.items ≡ self.old.items ++ recorded who act said.items ended ∷ [] }
    {
        self.lists.as_mut().append(who, act, said, ended);
    }
}
