//! The entries of a journal, one by one.

ghost use Rattle.std.specs.Prelude.{◌≡◌, ◌∷◌, [], take, drop, IfOk, OnOk, OnErr, MatchOption};
ghost use Rattle.arena_core.specs.Kept.{entries_of};

use crate::answers::Answers;
use crate::entry::Entry;
use crate::kept::Row;
use arena_rules::Said;
use chunk_tags::NoMemory;
use std::alloc::Global;
use std::marker::Model;

/// The entries of a journal that are still to come (this project's own).
#[derive(Drop)]
pub struct Entries<'a> {
    rows: &'a [Row],
    answers: Answers<'a>,
}

impl<'a> Model for Entries<'a> {
    ghost use Rattle.std.specs.Prelude.{List};
    ghost use Rattle.arena_core.specs.Journal.{Recorded};
    ghost use Rattle.arena_core.specs.Kept.{entries_of};

    ghost Value = { List Recorded };

    ghost view = { λ e. entries_of e.rows.now e.answers };
}

/// The next answers, so many or as many as are left.
fn next_answers(
    alloc: Global,
    answers: &mut Answers<'_>,
    count: usize,
) -> Result<Vec<Said>, NoMemory>
    ensures next { IfOk result (λ said. said.items ≡ take count answers.old) }
    ensures behind { OnOk result (answers.new ≡ drop count answers.old) }
{
    let mut said = Vec::with_capacity(alloc, count)?;
    for _ in 0..count {
        answers.tell_next(&mut said)?;
    }
    Ok(said)
}

impl<'a> Entries<'a> {
    /// The entries of these rows, with their answers.
    pub(crate) fn of(rows: &'a [Row], answers: Answers<'a>) -> Entries<'a>
        ensures { result ≡ entries_of rows.now answers.entry }
    {
        Entries { rows, answers }
    }

    /// The next entry; `None` exactly where there is none left. After `NoMemory` it is still to come.
    pub fn next(&mut self, alloc: Global) -> Result<Option<Entry>, NoMemory>
        ensures next { IfOk result (λ next. MatchOption next
            ((self.old ≡ []) × (self.new ≡ [])) (λ entry. self.old ≡ entry ∷ self.new)) }
        ensures err { OnErr result (self.new ≡ self.old) }
    {
        let Some((row, rows)) = self.rows.split_first() else {
            return Ok(None);
        };
        let mut answers = self.answers.again();
        let said = next_answers(alloc, &mut answers, row.answers)?;
        self.rows = rows;
        self.answers = answers;
        Ok(Some(Entry {
            who: row.who,
            act: row.act,
            said,
            ended: row.ended,
        }))
    }
}
