//! The summary of a run, which stands in place of its report.

ghost use Rattle.std.specs.Prelude.{◌≡◌, ◌++◌, OnOk, OnErr};
ghost use Rattle.stats_text.specs.Appends.{LacksRoom, KeepsText};
ghost use Rattle.stats_text.specs.Totals.{HasTotals};
ghost use Rattle.stats_text.specs.Summary.{summary_of};

use crate::totals::append_totals;
use crate::views::Snapshot;
use crate::{Counts, push_counts, push_text};
use chunk_tags::NoMemory;

/// Appends a summary: the counts of the answers, and the five last lines of the statistics.
#[tactic(auto, unfolding(crate::specs::Summary::summary_of))]
pub fn append_summary(out: &mut Vec<u8>, counts: &Counts, s: &Snapshot) -> Result<(), NoMemory>
    requires { HasTotals s.now }
    ensures ok { OnOk result (out.new.items ≡ out.old.items ++ summary_of counts.now s.now) }
    ensures full { OnErr result (LacksRoom out.old (summary_of counts.now s.now)) }
    ensures kept { KeepsText out.old out.new }
{
    push_text(out, b"ptmsummary 1\n")?;
    push_counts(out, counts)?;
    append_totals(out, s)
}
