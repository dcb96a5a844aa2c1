//! What a run writes, line by line: the records of a report, or the counts of a summary.

ghost use Rattle.std.specs.Prelude.{◌≡◌, ◌<◌, ◌^◌, ◌∷◌, ◌++◌, [], List, false, length, codes, IfOk, OnOk, OnErr};
ghost use Rattle.stats_text.specs.Appends.{LacksRoom};
ghost use Rattle.stats_text.specs.Records.{record_text};
ghost use Rattle.stats_text.specs.Totals.{HasTotals};
ghost use Rattle.trace_text.specs.Spelling.{spelling_of, texts_of};
ghost use Rattle.trace_text.specs.declared.trace.Line.{Line};
ghost use Rattle.trace_replay.specs.Sheets.{IsTrace, HasNoted, Awaits, CanNote, NotesReply, LacksRoomFor, Spells, notes_of, text_with};

use crate::record::outcome;
use chunk_tags::NoMemory;
use malloc_calls::Reply;
use stats_text::{
    Counts, Outcome, Snapshot, append_places, append_record, append_stats, append_summary,
};
use std::alloc::Global;
use trace_text::{Line, Texts};

/// A report's first line with the records so far, and the texts of the lines that are to come.
#[derive(Drop)]
pub struct Records<'a> {
    text: Vec<u8>,
    texts: Texts<'a>,
}

impl<'a> Records<'a> {
    /// A report's first line alone; `bytes` spell the trace.
    fn new(alloc: Global, bytes: &'a [u8]) -> Result<Records<'a>, NoMemory>
        ensures first { IfOk result (λ r. r.text.items ≡ codes "ptmreport 1 serial\n") }
        ensures texts { IfOk result (λ r. (lines : List Line) → IsTrace lines bytes.now →
            r.texts ≡ texts_of lines) }
    {
        Ok(Records {
            text: Vec::from_slice(alloc, b"ptmreport 1 serial\n")?,
            texts: Texts::of(bytes),
        })
    }

    /// Appends the record of the next line.
    fn append(&mut self, said: &Outcome) -> Result<(), NoMemory>
        ensures ok { OnOk result ((line : Line) (rest : List Line) →
            self.old.texts ≡ texts_of (line ∷ rest) → (self.new.text.items ≡
            self.old.text.items ++ record_text (spelling_of line) said.now false)
            × (self.new.texts ≡ texts_of rest)) }
        ensures full { OnErr result ((line : Line) (rest : List Line) →
            self.old.texts ≡ texts_of (line ∷ rest) →
            LacksRoom self.old.text (record_text (spelling_of line) said.now false)) }
    {
        append_record(&mut self.text, self.texts.take(), said, false)
    }
}

/// What is written of a run: the records of a report, or the counts of a summary.
#[derive(Drop)]
pub enum Sheet<'a> {
    Report(Records<'a>),
    Summary(Counts),
}

impl<'a> Sheet<'a> {
    /// A sheet before any line. For a report `bytes` spell the trace.
    pub fn new(alloc: Global, summary: bool, bytes: &'a [u8]) -> Result<Sheet<'a>, NoMemory>
        ensures blank { IfOk result (λ sheet. HasNoted summary sheet []) }
        ensures awaits { (lines : List Line) → Spells summary bytes.now lines →
            length lines < 2 ^ 64 → IfOk result (λ sheet. Awaits sheet lines) }
    {
        if summary {
            Ok(Sheet::Summary(Counts::new()))
        } else {
            Ok(Sheet::Report(Records::new(alloc, bytes)?))
        }
    }

    /// Notes the reply to the next line. Of a summary that asks for no memory.
    pub fn note(&mut self, line: &Line, reply: &Reply) -> Result<(), NoMemory>
        requires { CanNote self.old }
        ensures noted { OnOk result ((rest : List Line) → Awaits self.old (line.now ∷ rest) →
            NotesReply self.old line.now reply.now rest self.new) }
        ensures full { OnErr result ((rest : List Line) → Awaits self.old (line.now ∷ rest) →
            LacksRoomFor self.old line.now reply.now) }
    {
        let said = outcome(&line.call, reply);
        match self {
            Sheet::Report(records) => records.append(&said),
            Sheet::Summary(counts) => {
                counts.add(&said);
                Ok(())
            }
        }
    }

    /// What it has, where no more lines come.
    pub fn notes(self) -> Notes
        ensures { result ≡ notes_of self.entry }
    {
        match self {
            Sheet::Report(records) => Notes::Report(records.text),
            Sheet::Summary(counts) => Notes::Summary(counts),
        }
    }
}

/// What is written of all lines: a report's first line with the records, or the counts of a summary.
#[derive(Drop)]
pub enum Notes {
    Report(Vec<u8>),
    Summary(Counts),
}

impl Notes {
    /// The whole text, with what is shown at the end.
    pub fn finish(self, alloc: Global, shown: &Snapshot) -> Result<Vec<u8>, NoMemory>
        requires { HasTotals shown.now }
        ensures { IfOk result (λ text. text.items ≡ text_with self shown.now) }
    {
        match self {
            Notes::Report(records) => {
                let mut text = records;
                append_places(&mut text, shown)?;
                append_stats(&mut text, shown)?;
                Ok(text)
            }
            Notes::Summary(counts) => {
                let mut text = Vec::new(alloc);
                append_summary(&mut text, &counts, shown)?;
                Ok(text)
            }
        }
    }
}
