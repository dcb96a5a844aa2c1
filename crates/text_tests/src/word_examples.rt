//! Worked examples: what words ask for, stated on the definitions alone. Nothing runs; the check computes them.

ghost use Rattle.std.specs.Prelude.{◌≡◌, ◌∷◌, [], codes, Some, None, false, true};
ghost use Rattle.chunk_tags.specs.Tunables.{serial_values, defaults_of};
ghost use Rattle.command_words.specs.Asked.{asked_by};

use chunk_tags::{Mode, Tunables};
use command_words::{Asked, Generated};

/// Words that are taken.
#[tactic(none)]
fn words_are_taken()
    ensures nothing { asked_by [] ≡ Some (record { mode = Mode.Serial; tunables = serial_values; generated = None; summary = false; trim = None }) }
    ensures the_name { asked_by (codes "--help" ∷ []) ≡ Some (record { mode = Mode.Serial; tunables = serial_values; generated = None; summary = false; trim = None }) }
    ensures a_value_behind { asked_by (codes "p" ∷ codes "--mxfast" ∷ codes "24" ∷ []) ≡ Some (record { mode = Mode.Serial; tunables = record serial_values { max_fast = 32 }; generated = None; summary = false; trim = None }) }
    ensures a_value_within { asked_by (codes "p" ∷ codes "--mmap-threshold=131072" ∷ codes "--" ∷ []) ≡ Some (record { mode = Mode.Serial; tunables = record serial_values { dynamic = false }; generated = None; summary = false; trim = None }) }
    ensures a_cached_size { asked_by (codes "p" ∷ codes "--tcache-max" ∷ codes "25" ∷ []) ≡ Some (record { mode = Mode.Serial; tunables = record serial_values { tcache_bins = 2 }; generated = None; summary = false; trim = None }) }
    ensures threads { asked_by (codes "p" ∷ codes "--threads" ∷ codes "--heaps=64" ∷ []) ≡ Some (record { mode = Mode.Threads; tunables = record (defaults_of Mode.Threads) { heaps = 64 }; generated = None; summary = false; trim = None }) }
    ensures a_pair { asked_by (codes "p" ∷ codes "--lines" ∷ codes "0" ∷ codes "--summary" ∷ codes "--gen=5" ∷ []) ≡ Some (record { mode = Mode.Serial; tunables = serial_values; generated = Some (record { seed = 5; lines = 0 }); summary = true; trim = None }) }
    ensures a_pad { asked_by (codes "p" ∷ codes "--trim=4096" ∷ []) ≡ Some (record { mode = Mode.Serial; tunables = serial_values; generated = None; summary = false; trim = Some 4096 }) }
{}

/// Words that aren't taken.
#[tactic(none)]
fn words_are_refused()
    ensures no_option { asked_by (codes "p" ∷ codes "trace" ∷ []) ≡ None }
    ensures empty { asked_by (codes "p" ∷ [] ∷ []) ≡ None }
    ensures unknown { asked_by (codes "p" ∷ codes "--help" ∷ []) ≡ None }
    ensures shortened { asked_by (codes "p" ∷ codes "--mxfas=0" ∷ []) ≡ None }
    ensures no_value { asked_by (codes "p" ∷ codes "--mxfast" ∷ []) ≡ None }
    ensures empty_value { asked_by (codes "p" ∷ codes "--mxfast=" ∷ []) ≡ None }
    ensures past { asked_by (codes "p" ∷ codes "--mxfast" ∷ codes "161" ∷ []) ≡ None }
    ensures negative { asked_by (codes "p" ∷ codes "--mxfast" ∷ codes "-1" ∷ []) ≡ None }
    ensures leading_zero { asked_by (codes "p" ∷ codes "--mxfast" ∷ codes "01" ∷ []) ≡ None }
    ensures no_power { asked_by (codes "p" ∷ codes "--heap-max=65537" ∷ []) ≡ None }
    ensures no_page { asked_by (codes "p" ∷ codes "--main-max=4097" ∷ []) ≡ None }
    ensures twice { asked_by (codes "p" ∷ codes "--cores" ∷ codes "1" ∷ codes "--cores=1" ∷ []) ≡ None }
    ensures hyphens { asked_by (codes "p" ∷ codes "--" ∷ codes "--cores=1" ∷ []) ≡ None }
    ensures value_of_a_flag { asked_by (codes "p" ∷ codes "--threads=1" ∷ []) ≡ None }
    ensures summary_of_threads { asked_by (codes "p" ∷ codes "--summary" ∷ codes "--threads" ∷ []) ≡ None }
    ensures summary_of_a_trim { asked_by (codes "p" ∷ codes "--summary" ∷ codes "--trim=0" ∷ []) ≡ None }
    ensures one_of_a_pair { asked_by (codes "p" ∷ codes "--gen" ∷ codes "5" ∷ []) ≡ None }
{}
