//! Worked examples: how the rules refuse, stated on the definitions alone. Nothing runs; the check computes them.

ghost use Rattle.std.specs.Prelude.{◌≡◌, ◌∷◌, [], ℕ, List, length, codes, Err};
ghost use Rattle.address_space.specs.declared.kernel.Always.{Always};
ghost use Rattle.trace_replay.specs.Asked.{served_by};
ghost use Rattle.trace_replay.specs.SerialText.{verdict};
ghost use Rattle.trace_text.specs.declared.fault.BadWhy.TheVariants.{Cut, Held, NotHeld};

use crate::exit::Exit;
use address_space::{Always, Kernel};

/// What is refused, and as what.
#[tactic(none)]
fn others_are_refused()
    ensures empty { verdict ⟦<Always as Kernel>⟧.port (record {} ∷ []) (served_by (codes "ptmreplay" ∷ [])) [] ≡ Err (Exit.BadTrace 1 Cut) }
    ensures cut { verdict ⟦<Always as Kernel>⟧.port (record {} ∷ []) (served_by (codes "ptmreplay" ∷ [])) (codes "ptmtrace 1") ≡ Err (Exit.BadTrace 1 Cut) }
    ensures held { verdict ⟦<Always as Kernel>⟧.port (record {} ∷ []) (served_by (codes "ptmreplay" ∷ [])) (codes "ptmtrace 1\n0 m 1 24\n0 m 1 24\n") ≡ Err (Exit.BadTrace 3 Held) }
    // a fault goes before the lines in front of it
    ensures fault_first { verdict ⟦<Always as Kernel>⟧.port (record {} ∷ []) (served_by (codes "ptmreplay" ∷ [])) (codes "ptmtrace 1\n0 m 1 24\n0 p 1 7\n0 f 2\n") ≡ Err (Exit.BadTrace 4 NotHeld) }
    ensures too_long { (bytes : List ℕ) → length bytes ≡ 67108865 → verdict ⟦<Always as Kernel>⟧.port (record {} ∷ []) (served_by (codes "ptmreplay" ∷ [])) bytes ≡ Err Exit.TooLong }
    ensures word { verdict ⟦<Always as Kernel>⟧.port (record {} ∷ []) (served_by (codes "ptmreplay" ∷ codes "--threads" ∷ [])) (codes "ptmtrace 1\n") ≡ Err (Exit.NotBuilt 0) }
    // what the words ask for goes before a fault of the trace
    ensures word_before_fault { verdict ⟦<Always as Kernel>⟧.port (record {} ∷ []) (served_by (codes "ptmreplay" ∷ codes "--threads" ∷ [])) (codes "ptmtrace 1\n0 f 1\n") ≡ Err (Exit.NotBuilt 0) }
    ensures fault_of_a_summary { verdict ⟦<Always as Kernel>⟧.port (record {} ∷ []) (served_by (codes "ptmreplay" ∷ codes "--summary" ∷ [])) (codes "ptmtrace 1\n0 f 1\n") ≡ Err (Exit.BadTrace 2 NotHeld) }
    ensures unknown_word { verdict ⟦<Always as Kernel>⟧.port (record {} ∷ []) (served_by (codes "ptmreplay" ∷ codes "trace" ∷ [])) (codes "ptmtrace 1\n0 f 1\n") ≡ Err Exit.Usage }
    ensures past_its_range { verdict ⟦<Always as Kernel>⟧.port (record {} ∷ []) (served_by (codes "ptmreplay" ∷ codes "--mxfast=161" ∷ [])) [] ≡ Err Exit.Usage }
{}
