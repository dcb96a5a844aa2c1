//! What a report of threads is held against: `Follows`. The one promise is the law `follows`: where each worker keeps its promise
//! (`Works`), and closing keeps its own (`IsLawful`), all threads follow. There is no code.
#![tactic(auto)]
