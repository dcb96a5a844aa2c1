//! The text of a report: the words that its lines are made of, its records, the counts of the answers, the places of every
//! chunk, the totals of malloc_stats(3), and a summary. A contract sees plain data (`Views`) and bytes. The one promise:
//! what is appended is the text of the definitions `Words`, `Records`, `AnswerCounts`, `Report`, `Totals` and `Summary`,
//! whatever stands in the data; and memory is short only where the text is longer than the room that is left (`Appends`).
#![tactic(auto)]

mod answer_counts;
mod places;
mod records;
mod report;
mod summary;
mod totals;
mod views;
mod words;

pub use answer_counts::{Counts, count_outcomes, push_counts};
pub use records::{Outcome, Record, Sink3, Source3, append_record, record_line};
pub use report::{append_places, places_text};
pub use summary::append_summary;
pub use totals::{append_stats, append_totals, in_use, stats_text};
pub use views::{ArenaView, CacheView, DialsView, Place, Snapshot, TileView};
pub use words::{
    push_address, push_addresses, push_number, push_numbered, push_right, push_text, put_block,
    put_number, put_text,
};
