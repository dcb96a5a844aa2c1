//! A trace from a seed.

ghost use Rattle.std.specs.Prelude.{◌≡◌, ◌≤◌, ◌∷◌, ◌++◌, [], List, IfOk};
ghost use Rattle.trace_text.specs.declared.trace.Line.{Line};
ghost use Rattle.trace_text.specs.Grammar.{place_after};
ghost use Rattle.trace_text.specs.Spelling.{Allows};
ghost use Rattle.trace_maker.specs.Generator.{TakesPosted, line_made, lines_made};
ghost use Rattle.trace_maker.specs.HeldMarks.{Knows};

use crate::held::{Held, is_held_after};
use crate::maker::Maker;
use chunk_tags::NoMemory;
use std::alloc::Global;
use trace_text::{Line, Lines, Trace};

/// The next line; the marks then say what it says as well.
#[tactic(auto, unfolding(crate::specs::Generator::line_made))]
fn next_line(maker: &mut Maker, held: &mut Held, number: u64) -> Result<Line, NoMemory>
    ensures number { IfOk result (λ line. line.number ≡ number) }
    ensures made { IfOk result (λ line. (before : List Line) → Knows held.old.marks.items before →
        number ≡ place_after before → ((line, maker.new) ≡ line_made before maker.old) ×
        Knows held.new.marks.items (before ++ line ∷ [])) }
{
    let thread = maker.draw(4) as u8;
    let drawn = maker.draw(1024) as u32;
    let name = drawn + 1;
    let was = held.has(thread, name);
    let call = maker.call(was, thread, name)?;
    held.note(thread, name, is_held_after(&call, was));
    Ok(Line {
        thread,
        number,
        call,
    })
}

/// The trace of a seed, of version 1, with `n` lines behind its header (this project's own): four threads, which take blocks, give
/// them up, get other sizes for them and hand them on, as is drawn.
pub fn generate(alloc: Global, seed: u64, n: u32) -> Result<Trace, NoMemory>
    requires { n ≤ 1000000 }
    ensures exact { IfOk result (λ trace. trace.lines ≡ lines_made seed n) }

    ensures version { IfOk result (λ trace. trace.version ≡ 1) }

    // What is printed of it is read as these lines again.
    ensures allowed { IfOk result (λ trace. Allows trace.version trace.lines) }

    // Every take stands behind a post of its tray.
    ensures posted { IfOk result (λ trace. TakesPosted trace.lines) }
{
    let mut lines = Lines::with_capacity(alloc, n as usize)?;
    let mut maker = Maker::new(alloc, seed)?;
    let mut held = Held::new(alloc)?;
    for done in 0..n {
        let line = next_line(&mut maker, &mut held, u64::from(done) + 2)?;
        lines.push(line)?;
    }
    Ok(Trace { version: 1, lines })
}
