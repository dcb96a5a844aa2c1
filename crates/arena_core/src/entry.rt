//! An entry of an arena's journal.

use crate::journal::{Act, Ended, Who};
use arena_rules::Said;
use std::marker::Model;

/// One recorded hold of an arena (this project's own): by whom, what for, what it was told, in order, and how it ended.
#[derive(Debug, Drop)]
pub struct Entry {
    pub who: Who,
    pub act: Act,
    pub said: Vec<Said>,
    pub ended: Ended,
}

impl Model for Entry {
    ghost use Rattle.arena_core.specs.Journal.{Recorded};

    ghost Value = { Recorded };

    ghost view = { λ e. record { who = e.who; act = e.act; said = e.said.items; ended = e.ended } };
}
