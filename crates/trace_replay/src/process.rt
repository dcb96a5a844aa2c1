//! The threads over the places of one order of calls: a line of a trace is a call of its thread.

ghost use Rattle.std.specs.Prelude.{◌≡◌, ◌≤◌, vec_len, IfOk, OnOk, OnErr};
ghost use Rattle.chunk_tags.specs.Tunables.{IsTuned};

use crate::calling::{call, tidy};
use crate::threads::new_threads;
use crate::trims::trim_lines;
use address_space::Kernel;
use chunk_tags::{NoMemory, Tunables};
use malloc_calls::{Reply, Thread};
use serial_places::{Serial, SerialEnd};
use stats_text::Snapshot;
use std::alloc::Global;
use trace_text::Line;
use world_view::snapshot;

/// What is told of a process at its end: what a report shows, and the lines on what was given up of arenas.
#[derive(Drop)]
pub struct Ending {
    pub shown: Snapshot,
    pub trim: Vec<u8>,
}

/// The threads by number, with all that their calls go over.
#[derive(Drop)]
pub struct Process<K: Kernel> {
    threads: Vec<Thread<K>>,
    serial: Serial,
    t: Tunables,
    ghost tuned: { IsTuned t },
}

impl<K: Kernel> Process<K> {
    ghost use Rattle.stats_text.specs.Totals.{HasTotals};
    ghost use Rattle.trace_text.specs.Grammar.{threads};
    ghost use Rattle.world_view.specs.Scenes.{shown_of};
    ghost use Rattle.trace_replay.specs.SerialText.{trim_section};
    ghost use Rattle.trace_replay.specs.Views.{scene_of};
    ghost use Rattle.trace_replay.specs.Naming.{HoldsWithin, MayRun, LeavesLine};
    ghost use Rattle.trace_replay.specs.Processes.{world_of, Tells, step_in, IsBetweenCalls};
    ghost use Rattle.trace_replay.specs.LeftLines.{IsStepLeft};
    ghost use Rattle.trace_replay.specs.Tiling.{IsTiled, FitsWithin, no_wishes};
    ghost use Rattle.trace_replay.specs.World.{opening_world};
    ghost use Rattle.std.specs.Prelude.{Some, []};

    /// A process that has called nothing yet, over the port of each thread.
    pub fn new(alloc: Global, kernels: Vec<K>, t: &Tunables) -> Result<Process<K>, NoMemory>
        requires ports { vec_len kernels ≡ threads }
        requires tuned { IsTuned t.now }
        ensures world { IfOk result (λ p. world_of p ≡ opening_world t.now kernels.items) }
        ensures settled { IfOk result IsBetweenCalls }
        ensures holds { IfOk result (λ p. HoldsWithin [] (world_of p)) }
        ensures fit { IfOk result (λ p. FitsWithin no_wishes (world_of p)) }
        ensures tunables { IfOk result (λ p. p.t ≡ t.now) }
    {
        Ok(Process {
            threads: new_threads(alloc, kernels, t)?,
            serial: Serial::new(alloc, t)?,
            t: *t,
        })
    }

    /// A law; the call does nothing. Between two calls the world is tiled.
    pub fn laws(&self)
        requires { IsBetweenCalls self.now }
        ensures { IsTiled (world_of self.now) }
    {
        self.serial.laws();
        world_view::laws();
    }

    /// One line of a trace.
    #[tactic(auto, unfolding(crate::specs::World::step))]
    pub fn step(&mut self, line: &Line) -> Result<Reply, NoMemory>
        requires may { MayRun line.now (world_of self.old) }
        requires settled { IsBetweenCalls self.old }
        ensures told { Tells K.port self.old →
            IfOk result (λ reply.
            step_in K.port line.now self.old ≡ Some (reply, world_of self.new)) }
        ensures telling { Tells K.port self.old → OnOk result (Tells K.port self.new) }
        ensures blocks { IfOk result (λ reply.
            LeavesLine line.now reply (world_of self.old) (world_of self.new)) }
        ensures settled { OnOk result (IsBetweenCalls self.new) }
        ensures tunables { self.new.t ≡ self.old.t }
        ensures left { OnErr result (IsStepLeft K.port line.now self.old self.new) }
    {
        let thread = &mut self.threads[usize::from(line.thread)];
        let reply = call(thread, &mut self.serial, line, &self.t)?;
        thread.laws();
        tidy(thread, line);
        thread.laws();
        Ok(reply)
    }

    /// What a report shows of it at its end; the threads with these numbers have lines. Where a pad is given, all arenas are
    /// trimmed then.
    pub fn end(self, alloc: Global, numbers: &[u8], trim: Option<u64>) -> Result<Ending, NoMemory>
        requires { IsBetweenCalls self }
        ensures shown { IfOk result (λ e.
            e.shown ≡ shown_of (scene_of numbers.now (world_of self))) }
        ensures trim { IfOk result (λ e.
            e.trim.items ≡ trim_section trim (scene_of numbers.now (world_of self))) }
        ensures totals { IfOk result (λ e. HasTotals e.shown) }
    {
        self.laws();
        let Process {
            threads,
            serial,
            t: _,
        } = self;
        serial.laws();
        let end = serial.end()?;
        let shown = snapshot(
            alloc,
            threads.as_slice(),
            end.arenas.as_slice(),
            end.fast.as_slice(),
            end.trays.as_slice(),
            &end.book,
            &end.dials,
            numbers,
        )?;
        let SerialEnd {
            mut arenas,
            fast,
            book,
            trays: _,
            dials: _,
        } = end;
        let lines = trim_lines(
            alloc,
            trim,
            arenas.as_mut_slice(),
            fast.as_slice(),
            book.list(),
        )?;
        Ok(Ending { shown, trim: lines })
    }
}
