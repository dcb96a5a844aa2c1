//! The rules of one arena, as definitions and laws: what an arena consists of (`PlainArena`), where main lies
//! (`MainPlaces`), the moves of which every rule is made (`Moves`), and the rules of a hold as a tree over the answers
//! that it is told (`Rules`, `Release`, `Trim`, `Growth`, `Search`; `Resize` and `Align` for another size and for
//! alignment). The one promise: each rule stands here once, and the crates above say what they do by it.
#![tactic(auto)]

mod heap_end;
mod moves;
mod said;

pub use heap_end::HeapEnd;
pub use moves::Moves;
pub use said::Said;
