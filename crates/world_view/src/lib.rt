//! What a report shows of threads, arenas and trays: each chunk at the place where it is found, the caches, the book of
//! arenas and the words beside the arenas. A contract sees them as a scene (`Scene` of `Scenes`). `snapshot`
//! promises what stands there (`shown`) and that its sums can be written (`totals`), and `laws` that nothing of a whole scene
//! is left out.
#![tactic(auto)]

mod arenas;
mod finds;
mod law;
mod places;
mod shown;
mod sights;
mod table;

pub use law::laws;
pub use shown::snapshot;
