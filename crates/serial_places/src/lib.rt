//! The places of one order of calls: everything stands in one value, and nothing waits. The one promise is that what a call is
//! told, and what it leaves, follow from the world that it begins with (`played_call` of `SerialWays`).
#![tactic(auto)]

mod both;
mod end;
mod serial;
mod slot;
mod tray;
mod trays;

pub use both::Both;
pub use end::SerialEnd;
pub use serial::Serial;
