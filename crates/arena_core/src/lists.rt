//! The lists that a journal consists of.

ghost use Rattle.std.specs.Prelude.{◌≡◌, ◌<◌, ◌≤◌, [], ◌∷◌, ◌++◌, length, OnOk, OnErr, IfOk};
ghost use Rattle.arena_core.specs.Arenas.{recorded};

use crate::answers::Answers;
use crate::journal::{Act, Ended, Who};
use crate::kept::{Row, Told, keep_all, put};
use crate::reading::Entries;
use address_space::{Answer, Ask};
use arena_rules::Said;
use chunk_tags::NoMemory;
use list_laws::make_room_for;
use std::alloc::Global;
use std::marker::Model;
use std::mem;

/// What a journal consists of: a row for each hold, and the answers of all, one behind the other.
#[derive(Drop)]
pub struct JournalLists {
    rows: Vec<Row>,
    told: Vec<Told>,
    asks: Vec<(Ask, Answer)>,
    /// The answers of the last hold, as they came. The next hold keeps them with the others and takes this list for its own, so
    /// a hold's entry is appended with no memory, however many answers it has.
    last: Vec<Said>,
}

impl Model for JournalLists {
    ghost use Rattle.std.specs.Prelude.{◌++◌};
    ghost use Rattle.arena_core.specs.Kept.{JournalValue, AreKept, answers_of, entries_of, journal_of};

    ghost Value = { JournalValue };

    ghost view = { λ l. journal_of l.rows l.last
        (entries_of l.rows.items (answers_of l.told.items l.asks.items ++ l.last.items)) };

    ghost invariant = { λ l. AreKept l.rows.items l.told.items l.asks.items l.last.items };
}

impl JournalLists {
    /// No entries.
    pub fn new(alloc: Global) -> JournalLists
        ensures { result.items ≡ [] }
    {
        JournalLists {
            rows: Vec::new(alloc),
            told: Vec::new(alloc),
            asks: Vec::new(alloc),
            last: Vec::new(alloc),
        }
    }

    /// How many entries there are.
    pub fn len(&self) -> usize
        ensures { result ≡ length self.now.items }
    {
        self.rows.len()
    }

    /// The entries, from the first on.
    pub fn entries(&self) -> Entries<'_>
        ensures { result ≡ self.now.items }
    {
        Entries::of(&self.rows, Answers::of(&self.told, &self.asks, &self.last))
    }

    /// Makes room for the entry of a hold that begins, and gives the list for its answers.
    pub fn begin(&mut self) -> Result<Vec<Said>, NoMemory>
        ensures items { self.new.items ≡ self.old.items }
        ensures room { OnOk result (length self.new.items < self.new.capacity) }
        ensures full { OnErr result (self.old.capacity ≤ length self.old.items) }
        ensures empty { IfOk result (λ said. said.items ≡ []) }
    {
        let count = self.last.len();
        make_room_for(&mut self.rows, 1)?;
        make_room_for(&mut self.told, count)?;
        make_room_for(&mut self.asks, count)?;
        keep_all(&mut self.told, &mut self.asks, &self.last);
        let none = Vec::new(*self.rows.allocator());
        let mut said = mem::replace(&mut self.last, none);
        said.clear();
        Ok(said)
    }

    /// Appends the entry of a hold, for which room was made. No memory is asked for.
    pub fn append(&mut self, who: Who, act: Act, said: Vec<Said>, ended: Ended)
        requires { length self.old.items < self.old.capacity }
        ensures { self.new.items ≡ self.old.items ++ recorded who act said.items ended ∷ [] }
    {
        let row = Row {
            who,
            act,
            ended,
            answers: said.len(),
        };
        put(&mut self.rows, row);
        self.last = said;
    }
}
