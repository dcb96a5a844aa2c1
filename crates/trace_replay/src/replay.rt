//! A serial run: the reply to each line, in file order.

ghost use Rattle.std.specs.Prelude.{◌≡◌, ℕ, List, [], ◌∷◌, Some, take, IfOk, OnOk, OnErr};
ghost use Rattle.trace_replay.specs.Naming.{HoldsWithin, MayRun, LeavesLine};
ghost use Rattle.trace_replay.specs.Tiling.{TilesAfter, FitsWithin, no_wishes};
ghost use Rattle.trace_replay.specs.Sheets.{AreLines, Awaits, CanNote, NotesReply, NotesRun};
ghost use Rattle.trace_text.specs.declared.trace.Line.{Line};
ghost use Rattle.trace_replay.specs.LeftLines.{IsLineLeft, IsRunLeft};
ghost use Rattle.trace_replay.specs.Processes.{world_of, Tells, step_in, run_in, IsBetweenCalls};

use crate::process::Process;
use crate::sheet::Sheet;
use address_space::Kernel;
use chunk_tags::NoMemory;
use malloc_calls::Reply;
use trace_text::{Line, Lines};

/// Runs a line and notes its reply.
fn replay_line<K: Kernel>(
    process: &mut Process<K>,
    line: &Line,
    sheet: &mut Sheet<'_>,
) -> Result<Reply, NoMemory>
    requires room { CanNote sheet.old }
    requires may { MayRun line.now (world_of process.old) }
    requires settled { IsBetweenCalls process.old }
    ensures told { Tells K.port process.old → IfOk result (λ reply.
        step_in K.port line.now process.old ≡ Some (reply, world_of process.new)) }
    ensures telling { Tells K.port process.old → OnOk result (Tells K.port process.new) }
    ensures noted { IfOk result (λ reply. (rest : List Line) → Awaits sheet.old (line.now ∷ rest) →
        NotesReply sheet.old line.now reply rest sheet.new) }
    ensures blocks { IfOk result (λ reply.
        LeavesLine line.now reply (world_of process.old) (world_of process.new)) }
    ensures settled { OnOk result (IsBetweenCalls process.new) }
    ensures tunables { process.new.t ≡ process.old.t }
    ensures left { OnErr result ((rest : List Line) → Awaits sheet.old (line.now ∷ rest) →
        IsLineLeft K.port line.now process.old sheet.old process.new) }
{
    let reply = process.step(line)?;
    sheet.note(line, &reply)?;
    Ok(reply)
}

/// Runs the lines of a trace in their order and notes their replies.
pub fn replay<K: Kernel>(
    process: &mut Process<K>,
    lines: &Lines,
    sheet: &mut Sheet<'_>,
) -> Result<(), NoMemory>
    requires holds { HoldsWithin [] (world_of process.old) }
    requires fit { FitsWithin no_wishes (world_of process.old) }
    requires settled { IsBetweenCalls process.old }
    requires allowed { AreLines lines.now }
    requires awaits { Awaits sheet.old lines.now }
    ensures told { Tells K.port process.old → OnOk result
        (NotesRun sheet.old sheet.new
        (run_in K.port lines.now process.old) (world_of process.new)) }
    ensures settled { OnOk result (IsBetweenCalls process.new) }
    ensures tiled { Tells K.port process.old → OnOk result ((count : ℕ) →
        TilesAfter K.port process.old.t (take count lines.now) (world_of process.old)) }
    ensures left { OnErr result
        (IsRunLeft K.port lines.now process.old sheet.old process.new) }
{
    process.laws();
    for index in 0..lines.len() {
        let line = lines.get(index);
        replay_line(process, &line, sheet)?;
        process.laws();
    }
    Ok(())
}
