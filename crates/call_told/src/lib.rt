//! A call of a thread, read against what it was told alone: `Obeys`, and what was done in it (`Deeds`). The one promise is the
//! law `goes_obeys`: a call that goes to its end over any places does so by what it was told. There is no code.
#![tactic(auto)]
