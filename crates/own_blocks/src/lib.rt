//! What a thread has of its own, and how a block comes to it and leaves it. A contract sees `Own` with its cache and its names.
//! Its main promise is the clause `does` of `free::free` and `exit::exit`, and of what gets a block (`Supplies`) and releases
//! one (`Releases`): each goes through its tree over any `Places`.
#![tactic(auto)]

mod cached;
pub mod exit;
pub mod free;
mod opening;
mod own;
mod own_cache;
mod releasing;
mod reply;
mod supplying;

pub use cached::CachedFree;
pub use opening::open_cache;
pub use own::Own;
pub use own_cache::OwnCache;
pub use releasing::release;
pub use reply::{Origin, Reply, To, Why};
pub use supplying::{Supply, fresh_supply, origin, plain_supply, supply_from_arena};

#[cfg(test)]
mod tests;
