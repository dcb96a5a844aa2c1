//! The dials' part of the rule of the board, without code: each step on the thresholds and the counts of mappings, and each change
//! of the passes, keeps `Dials` of board_types. The counts are what passes, their hands and the trays have mapped, and a maximum is
//! at least its count or a pass is still to raise it.
#![tactic(auto)]
