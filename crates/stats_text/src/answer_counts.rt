//! The counts of answers, and their lines.

ghost use Rattle.std.specs.Prelude.{◌≡◌, ◌++◌, [], OnOk, OnErr};
ghost use Rattle.stats_text.specs.AnswerCounts.{HasRoom, counts_of, counts_with, count_line, count_lines};
ghost use Rattle.stats_text.specs.Appends.{LacksRoom, KeepsText};

use crate::records::Outcome;
use crate::words::{push_numbered, push_text};
use chunk_tags::NoMemory;

/// How many lines of a trace had which answers (this project's own).
#[derive(Clone, Copy, Debug, PartialEq, Eq)]
pub struct Counts {
    /// All lines.
    pub lines: u64,
    /// A block was got, or realloc kept or moved one.
    pub got: u64,
    /// No block.
    pub null: u64,
    /// A tray had no block.
    pub missed: u64,
    /// The name had no block.
    pub skip: u64,
}

impl Counts {
    /// Before any answer.
    #[tactic(auto, unfolding(crate::specs::AnswerCounts::counts_of))]
    pub fn new() -> Counts
        ensures { result ≡ counts_of [] }
    {
        Counts {
            lines: 0,
            got: 0,
            null: 0,
            missed: 0,
            skip: 0,
        }
    }

    /// Counts one answer more.
    #[tactic(auto, unfolding(crate::specs::AnswerCounts::counts_with))]
    pub fn add(&mut self, said: &Outcome)
        requires { HasRoom self.old }
        ensures { self.new ≡ counts_with self.old said.now }
    {
        match *said {
            Outcome::Got { .. } | Outcome::Kept { .. } | Outcome::Moved { .. } => self.got += 1,
            Outcome::Null(_) => self.null += 1,
            Outcome::Missed { .. } => self.missed += 1,
            Outcome::Skip => self.skip += 1,
            Outcome::Freed { .. } | Outcome::Posted | Outcome::Taken { .. } | Outcome::Ended => {}
        }
        self.lines += 1;
    }
}

/// The counts of answers.
pub fn count_outcomes(outcomes: &[Outcome]) -> Counts
    ensures { result ≡ counts_of outcomes.now }
{
    let mut counts = Counts::new();
    for said in outcomes {
        counts.add(said);
    }
    counts
}

/// Appends a line with a count.
#[tactic(auto, unfolding(crate::specs::AnswerCounts::count_line))]
fn push_count(out: &mut Vec<u8>, word: &[u8], n: u64) -> Result<(), NoMemory>
    ensures ok { OnOk result (out.new.items ≡ out.old.items ++ count_line word.now n) }
    ensures full { OnErr result (LacksRoom out.old (count_line word.now n)) }
    ensures kept { KeepsText out.old out.new }
{
    push_numbered(out, word, n)?;
    push_text(out, b"\n")
}

/// Appends the lines with the counts.
#[tactic(auto, unfolding(crate::specs::AnswerCounts::count_lines))]
pub fn push_counts(out: &mut Vec<u8>, counts: &Counts) -> Result<(), NoMemory>
    ensures ok { OnOk result (out.new.items ≡ out.old.items ++ count_lines counts.now) }
    ensures full { OnErr result (LacksRoom out.old (count_lines counts.now)) }
    ensures kept { KeepsText out.old out.new }
{
    push_count(out, b"lines ", counts.lines)?;
    push_count(out, b"got ", counts.got)?;
    push_count(out, b"null ", counts.null)?;
    push_count(out, b"missed ", counts.missed)?;
    push_count(out, b"skip ", counts.skip)
}
